//! Variables and names.

ghost use Rattle.std.specs.Prelude.{◌≡◌, ◌≤◌, ◌<◌, ◌^◌, if◌then◌else◌, length, map, codes};
ghost use Rattle.std.specs.Str.{bytes_eq};
ghost use Rattle.stan_model_grammar.specs.Words.{begins_variable, begins_name};
ghost use Rattle.stan_model_doc.specs.Tokens.{word_kind, name_kind, doc_name, doc_variable};
ghost use Rattle.stan_doc_tokens.specs.Tables.{row_of, kind_of_folded};

use crate::marks::kind_of_word;
use stan_doc_lines::runs::Run;
use stan_model_doc::token::{DocKind, EXACT_WORDS, FOLDED_WORDS};
use stan_runs::bytes::{begins_identifier, byte_at};
use stan_runs::runs::run_end;

// The kind that the rows give a word, whose case is passed over, or another one.
fn kind_of_folded(rows: &[(&str, DocKind)], other: DocKind, word: &[u8]) -> DocKind
    ensures { result ≡ kind_of_folded (map row_of rows.now) other word.now }
{
    for (row, kind) in rows {
        if word.eq_ignore_ascii_case(row.as_bytes()) {
            return *kind;
        }
    }
    other
}

// The kind of a word without `\` and `-`.
#[tactic(auto, unfolding(stan_model_doc::specs::Tokens::word_kind, stan_model_doc::specs::Tokens::exact_words, stan_model_doc::specs::Tokens::folded_words))]
fn word_kind(word: &[u8]) -> DocKind
    ensures { result ≡ word_kind word.now }
{
    let folded = kind_of_folded(&FOLDED_WORDS, DocKind::Identifier, word);
    kind_of_word(&EXACT_WORDS, folded, word)
}

#[tactic(auto, using(crate::proofs::WordLemmas::any_or), unfolding(stan_model_doc::specs::Tokens::name_kind))]
fn name_kind(name: &[u8]) -> DocKind
    ensures { result ≡ name_kind name.now }
{
    if name.contains(&b'\\') || name.contains(&b'-') {
        DocKind::Name
    } else {
        word_kind(name)
    }
}

/// Whether `$` and an identifier stand there.
pub fn begins_variable(text: &[u8], at: usize) -> bool
    requires { at < 2 ^ 63 }
    ensures { result ≡ begins_variable text.now at }
{
    byte_at(text, at) == b'$' && begins_identifier(byte_at(text, at + 1))
}

/// Whether an identifier, with or without `\` in front, begins there.
pub fn begins_name(text: &[u8], at: usize) -> bool
    requires { at < 2 ^ 63 }
    ensures { result ≡ begins_name text.now at }
{
    let byte = byte_at(text, at);
    begins_identifier(byte) || (byte == b'\\' && begins_identifier(byte_at(text, at + 1)))
}

/// The word or name at a place, by its kind and its end.
#[tactic(auto, unfolding(stan_model_doc::specs::Tokens::doc_name))]
pub fn doc_name(text: &[u8], at: usize) -> (DocKind, usize)
    requires { at < length text.now }
    ensures value { result ≡ doc_name text.now at }
    ensures rises { at < result.1 }
    ensures within { result.1 ≤ length text.now }
{
    let to = run_end(text, Run::Name, at + 1);
    (name_kind(&text[at..to]), to)
}

fn variable_kind(name: &[u8]) -> DocKind
    ensures { result ≡ (if bytes_eq name.now (codes "$this") then DocKind.This else DocKind.Variable) }
{
    if name == b"$this".as_slice() {
        DocKind::This
    } else {
        DocKind::Variable
    }
}

/// The variable at a place, by its kind and its end.
#[tactic(auto, unfolding(stan_model_doc::specs::Tokens::doc_variable))]
pub fn doc_variable(text: &[u8], at: usize) -> (DocKind, usize)
    requires { at < length text.now }
    ensures value { result ≡ doc_variable text.now at }
    ensures rises { at < result.1 }
    ensures within { result.1 ≤ length text.now }
{
    let to = run_end(text, Run::Word, at + 1);
    (variable_kind(&text[at..to]), to)
}
