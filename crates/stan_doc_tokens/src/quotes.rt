//! Texts in quotes, and what ends them.

ghost use Rattle.std.specs.Prelude.{◌≡◌, ◌+◌, ◌≤◌, ◌<◌, ◌^◌, length, max, slice_index};
ghost use Rattle.stan_model_grammar.specs.Runs.{run_end};
ghost use Rattle.stan_model_doc.specs.Tokens.{doc_quoted};
ghost use Rattle.stan_runs.specs.FixedBytes.{fixed_from};
ghost use Rattle.stan_doc_tokens.specs.Quotes.{BeginsNone};

use stan_model_doc::token::DocKind;
use stan_runs::bytes::byte_at;
use stan_runs::fixed::{Quote, fixed_end};

/// The places before which no quoted text begins with `'` and none with `"`, as far as the text was looked through: a quote without its
/// end is followed by others without theirs, and so no byte is looked at again for each of them.
#[derive(Clone, Copy)]
pub struct Seen {
    pub single: usize,
    pub double: usize,
}

/// A token that begins with a quote, and the place before which no other text begins with that quote.
#[derive(Clone, Copy)]
pub struct Quoted {
    pub kind: DocKind,
    pub end: usize,
    pub stop: usize,
}

/// The text that the `'` at a place begins, or the `'` alone where it begins none.
#[tactic(auto, using(crate::proofs::SeenLemmas::seen_steps), unfolding(stan_model_doc::specs::Tokens::doc_quoted, stan_model_grammar::specs::Texts::single_quoted))]
pub fn single_text(text: &[u8], at: usize, stop: usize) -> Quoted
    requires within { at < length text.now }
    requires quote { slice_index text.now at ≡ 39 }
    requires seen { BeginsNone text.now 39 at stop }
    ensures value { (result.kind, result.end) ≡ doc_quoted text.now at }
    ensures rises { at < result.end }
    ensures within { result.end ≤ length text.now }
    ensures seen { BeginsNone text.now 39 (at + 1) result.stop }
{
    let kind = DocKind::Other;
    let end = at + 1;
    if at < stop {
        return Quoted { kind, end, stop };
    }
    let to = fixed_end(text, Quote::Single, at + 1);
    if to < text.len() {
        Quoted {
            kind: DocKind::SingleQuoted,
            end: to + 1,
            stop,
        }
    } else {
        let stop = text.len();
        Quoted { kind, end, stop }
    }
}

/// The text that the `"` at a place begins, or the `"` alone where it begins none.
#[tactic(auto, using(crate::proofs::SeenLemmas::seen_steps), unfolding(stan_model_doc::specs::Tokens::doc_quoted, stan_model_grammar::specs::Texts::double_quoted))]
pub fn double_text(text: &[u8], at: usize, stop: usize) -> Quoted
    requires within { at < length text.now }
    requires quote { slice_index text.now at ≡ 34 }
    requires seen { BeginsNone text.now 34 at stop }
    ensures value { (result.kind, result.end) ≡ doc_quoted text.now at }
    ensures rises { at < result.end }
    ensures within { result.end ≤ length text.now }
    ensures seen { BeginsNone text.now 34 (at + 1) result.stop }
{
    let kind = DocKind::Other;
    let end = at + 1;
    if at < stop {
        return Quoted { kind, end, stop };
    }
    let to = fixed_end(text, Quote::Double, at + 1);
    if byte_at(text, to) == b'"' {
        Quoted {
            kind: DocKind::DoubleQuoted,
            end: to + 1,
            stop,
        }
    } else {
        let stop = to;
        Quoted { kind, end, stop }
    }
}
