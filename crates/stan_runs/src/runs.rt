//! Runs of places that pass one test.

ghost use Rattle.std.specs.Prelude.{◌≡◌, ◌≤◌, ◌<◌, ◌^◌, ℕ, Bool, List, length, max};
ghost use Rattle.stan_model_grammar.specs.Runs.{run_end, digit_at, hexadecimal_at};
ghost use Rattle.stan_runs.specs.Bases.{is_digit_in};

use crate::bases::{Base, is_digit_in};
use crate::bytes::{byte_at, is_hexadecimal_digit};

/// What the places of a run hold.
pub trait Places {
    /// The places of a text that may stand in the run.
    ghost holds: { Self → List ℕ → ℕ → Bool };

    /// Whether a place may stand in the run.
    fn holds(&self, source: &[u8], at: usize) -> bool
        requires { at < 2 ^ 63 }
        ensures { result ≡ holds self.now source.now at };
}

/// Digits of a base, where one `_` may stand between two.
#[derive(Clone, Copy)]
pub struct Digits(pub Base);

impl Places for Digits {
    ghost holds = { λ digits source. digit_at (is_digit_in digits.0) source };

    fn holds(&self, source: &[u8], at: usize) -> bool {
        let byte = byte_at(source, at);
        is_digit_in(self.0, byte) || (byte == b'_' && is_digit_in(self.0, byte_at(source, at + 1)))
    }
}

/// Hexadecimal digits alone.
#[derive(Clone, Copy)]
pub struct HexadecimalDigits;

impl Places for HexadecimalDigits {
    ghost holds = { λ digits. hexadecimal_at };

    fn holds(&self, source: &[u8], at: usize) -> bool {
        is_hexadecimal_digit(byte_at(source, at))
    }
}

/// The end of the run that begins at a place, which is the place itself where it holds nothing of the run.
#[tactic(auto, using(crate::proofs::RunLemmas::run_steps))]
pub fn run_end<P: Places + Copy>(source: &[u8], places: P, from: usize) -> usize
    ensures value { result ≡ run_end source.now (P.holds places source.now) from }
    ensures rises { from ≤ result }
    ensures within { result ≤ max from (length source.now) }
{
    let mut to = from;
    while to < source.len() && places.holds(source, to) {
        to += 1;
    }
    to
}
