//! Variables, identifiers, keywords and names.

ghost use Rattle.std.specs.Prelude.{◌≡◌, ◌≤◌, ◌<◌, ◌^◌, length, map};
ghost use Rattle.stan_model_grammar.specs.Words.{kind_among, name_kind, begins_variable, begins_name, name};
ghost use Rattle.stan_lexer.specs.Tables.{row_of};

use crate::runs::Run;
use stan_base::begins_relative;
use stan_model_grammar::token::{KEYWORDS, TokenKind};
use stan_runs::bytes::{begins_identifier, byte_at};
use stan_runs::runs::run_end;

/// The kind that the rows give a word, which is compared without case, or that of an identifier.
pub fn kind_among(rows: &[(&str, TokenKind)], word: &[u8]) -> TokenKind
    ensures { result ≡ kind_among (map row_of rows.now) word.now }
{
    for (row, kind) in rows {
        if word.eq_ignore_ascii_case(row.as_bytes()) {
            return *kind;
        }
    }
    TokenKind::Identifier
}

#[tactic(auto, unfolding(stan_model_grammar::specs::Words::name_kind, stan_model_grammar::specs::Words::keywords))]
fn name_kind(name: &[u8]) -> TokenKind
    ensures { result ≡ name_kind name.now }
{
    if byte_at(name, 0) == b'\\' {
        TokenKind::FullyQualifiedName
    } else if begins_relative(name) {
        TokenKind::RelativeName
    } else if name.contains(&b'\\') {
        TokenKind::QualifiedName
    } else {
        kind_among(&KEYWORDS, name)
    }
}

pub fn begins_variable(source: &[u8], at: usize) -> bool
    requires { at < 2 ^ 63 }
    ensures { result ≡ begins_variable source.now at }
{
    byte_at(source, at) == b'$' && begins_identifier(byte_at(source, at + 1))
}

pub fn begins_name(source: &[u8], at: usize) -> bool
    requires { at < 2 ^ 63 }
    ensures { result ≡ begins_name source.now at }
{
    let byte = byte_at(source, at);
    begins_identifier(byte) || (byte == b'\\' && begins_identifier(byte_at(source, at + 1)))
}

/// The identifier, keyword or name with `\` at a place, by its kind and its end.
#[tactic(auto, unfolding(stan_model_grammar::specs::Words::name))]
pub fn name(source: &[u8], at: usize) -> (TokenKind, usize)
    requires { at < length source.now }
    ensures value { result ≡ name source.now at }
    ensures rises { at < result.1 }
    ensures within { result.1 ≤ length source.now }
{
    let to = run_end(source, Run::Name, at + 1);
    (name_kind(&source[at..to]), to)
}
