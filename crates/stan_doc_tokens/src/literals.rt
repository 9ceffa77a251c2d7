//! Numbers and quoted texts.

ghost use Rattle.std.specs.Prelude.{◌≡◌, ◌≤◌, ◌<◌, ◌+◌, ◌^◌, length, slice_index, IsTrue, ◌==◌, ◌⊎◌, if◌then◌else◌};
ghost use Rattle.stan_model_grammar.specs.Numbers.{begins_number};
ghost use Rattle.stan_model_doc.specs.Tokens.{number_kind, begins_doc_number, doc_number, doc_quoted};
ghost use Rattle.stan_doc_tokens.specs.Quotes.{AreSeen};

use crate::quotes::{Seen, double_text, single_text};
use stan_model_doc::token::DocKind;
use stan_model_grammar::token::TokenKind;
use stan_runs::bytes::byte_at;
use stan_runs::numbers::{begins_number, number};

fn number_kind(kind: TokenKind) -> DocKind
    ensures { result ≡ number_kind kind }
{
    match kind {
        TokenKind::Float => DocKind::Float,
        _ => DocKind::Integer,
    }
}

/// Whether a number, with or without `-` before it, begins there.
pub fn begins_doc_number(text: &[u8], at: usize) -> bool
    requires { at < 2 ^ 63 }
    ensures { result ≡ begins_doc_number text.now at }
{
    begins_number(text, at) || (byte_at(text, at) == b'-' && begins_number(text, at + 1))
}

// Where the number without its `-` begins.
fn digits_start(text: &[u8], at: usize) -> usize
    requires within { at < length text.now }
    requires begins { IsTrue (begins_doc_number text.now at) }
    ensures value { result ≡ (if slice_index text.now at == 45 then at + 1 else at) }
    ensures within { result < length text.now }
    ensures rises { at ≤ result }
    ensures begins { IsTrue (begins_number text.now result) }
{
    if text[at] == b'-' { at + 1 } else { at }
}

/// The longest number that begins at a place, by its kind and its end.
#[tactic(auto, unfolding(stan_model_doc::specs::Tokens::doc_number))]
pub fn doc_number(text: &[u8], at: usize) -> (DocKind, usize)
    requires within { at < length text.now }
    requires begins { IsTrue (begins_doc_number text.now at) }
    ensures value { result ≡ doc_number text.now at }
    ensures rises { at < result.1 }
    ensures within { result.1 ≤ length text.now }
{
    let from = digits_start(text, at);
    let (kind, to) = number(text, from);
    (number_kind(kind), to)
}

/// The quoted text that a quote at a place begins, by its kind and its end, or the quote alone where it begins none.
#[tactic(auto, using(crate::proofs::SeenLemmas::seen_steps))]
pub fn doc_quoted(text: &[u8], at: usize, seen: &mut Seen) -> (DocKind, usize)
    requires within { at < length text.now }
    requires quote { (slice_index text.now at ≡ 39) ⊎ (slice_index text.now at ≡ 34) }
    requires seen { AreSeen text.now at seen.old }
    ensures value { result ≡ doc_quoted text.now at }
    ensures rises { at < result.1 }
    ensures within { result.1 ≤ length text.now }
    ensures seen { AreSeen text.now (at + 1) seen.new }
{
    if text[at] == b'\'' {
        let read = single_text(text, at, seen.single);
        seen.single = read.stop;
        (read.kind, read.end)
    } else {
        let read = double_text(text, at, seen.double);
        seen.double = read.stop;
        (read.kind, read.end)
    }
}
