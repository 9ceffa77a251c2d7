//! The opening tag.

ghost use Rattle.std.specs.Prelude.{◌≡◌, ◌+◌, ◌≤◌, ◌<◌, ◌^◌, length, max, IsTrue};
ghost use Rattle.stan_model_grammar.specs.Tokens.{opening_start, has_opening};

use crate::runs::Run;
use stan_runs::bytes::{byte_at, is_blank};
use stan_runs::runs::run_end;

/// The place behind a first line that begins with `#!`.
#[tactic(auto, unfolding(stan_model_grammar::specs::Tokens::opening_start))]
pub fn opening_start(source: &[u8]) -> usize
    ensures value { result ≡ opening_start source.now }
    ensures within { result ≤ length source.now + 1 }
{
    if byte_at(source, 0) == b'#' && byte_at(source, 1) == b'!' {
        run_end(source, Run::Line, 0) + 1
    } else {
        0
    }
}

/// Whether `<?php` stands there, with a blank or the end behind it.
#[tactic(auto, unfolding(stan_model_grammar::specs::Tokens::has_opening))]
pub fn has_opening(source: &[u8]) -> bool
    ensures value { result ≡ has_opening source.now }
    ensures within { IsTrue result → opening_start source.now + 5 ≤ length source.now }
{
    let at = opening_start(source);
    byte_at(source, at) == b'<'
        && byte_at(source, at + 1) == b'?'
        && byte_at(source, at + 2) == b'p'
        && byte_at(source, at + 3) == b'h'
        && byte_at(source, at + 4) == b'p'
        && (at + 5 == source.len() || is_blank(byte_at(source, at + 5)))
}
