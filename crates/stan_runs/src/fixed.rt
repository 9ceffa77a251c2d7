//! The fixed bytes of texts in quotes, and what ends them.

ghost use Rattle.std.specs.Prelude.{◌≡◌, ◌+◌, ◌≤◌, ◌<◌, ◌^◌, length, max, slice_index};
ghost use Rattle.stan_model_grammar.specs.Runs.{run_end};
ghost use Rattle.stan_model_grammar.specs.Texts.{is_code_point, begins_wrong_escape, begins_insertion};
ghost use Rattle.stan_runs.specs.FixedBytes.{fixed, fixed_from};

use crate::bytes::{begins_identifier, byte_at};
use crate::numbers::value;
use crate::runs::{HexadecimalDigits, run_end};

/// Whether hexadecimal digits of a number up to 10FFFF stand there, with a `}` behind them.
#[tactic(auto, unfolding(stan_model_grammar::specs::Texts::is_code_point))]
pub fn is_code_point(source: &[u8], from: usize) -> bool
    requires { from ≤ length source.now }
    ensures { result ≡ is_code_point source.now from }
{
    let to = run_end(source, HexadecimalDigits, from);
    from < to
        && byte_at(source, to) == b'}'
        && match value(16, &source[from..to]) {
            Some(point) => point <= 0x10FFFF,
            None => false,
        }
}

// Whether a `\u{` stands there that means nothing.
fn begins_wrong_escape(source: &[u8], at: usize) -> bool
    requires { at < length source.now }
    ensures { result ≡ begins_wrong_escape source.now at }
{
    source[at] == b'\\'
        && byte_at(source, at + 1) == b'u'
        && byte_at(source, at + 2) == b'{'
        && !is_code_point(source, at + 3)
}

/// Whether `$` before an identifier or `{`, or `{$`, stands there.
pub fn begins_insertion(source: &[u8], at: usize) -> bool
    requires { at < 2 ^ 63 }
    ensures { result ≡ begins_insertion source.now at }
{
    let byte = byte_at(source, at);
    let next = byte_at(source, at + 1);
    (byte == b'$' && (begins_identifier(next) || next == b'{')) || (byte == b'{' && next == b'$')
}

/// Whose fixed bytes are read.
#[derive(Clone, Copy)]
pub enum Quote {
    /// A text in `'`.
    Single,
    /// A text in `"`.
    Double,
    /// The lines of a heredoc.
    Heredoc,
}

// Whether the byte at a place, which is escaped or isn't, belongs to the fixed bytes.
fn is_fixed(quote: Quote, escaped: bool, source: &[u8], at: usize) -> bool
    requires { at < length source.now }
    ensures { result ≡ fixed quote escaped source.now at }
{
    match quote {
        Quote::Single => escaped || source[at] != b'\'',
        Quote::Double => {
            escaped
                || !(source[at] == b'"'
                    || begins_insertion(source, at)
                    || begins_wrong_escape(source, at))
        }
        Quote::Heredoc => {
            !begins_insertion(source, at) && (escaped || !begins_wrong_escape(source, at))
        }
    }
}

/// The end of the fixed bytes that begin at a place.
#[tactic(auto, using(crate::proofs::FixedLemmas::fixed_steps))]
pub fn fixed_end(source: &[u8], quote: Quote, from: usize) -> usize
    ensures value { result ≡ run_end source.now (fixed_from quote source.now from) from }
    ensures rises { from ≤ result }
    ensures within { result ≤ max from (length source.now) }
{
    let mut to = from;
    let mut escaped = false;
    while to < source.len() && is_fixed(quote, escaped, source, to) {
        escaped = !escaped && source[to] == b'\\';
        to += 1;
    }
    to
}
