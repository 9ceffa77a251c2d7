//! How far a text goes.

ghost use Rattle.std.specs.Prelude.{◌≡◌, ◌≤◌, ◌+◌, length, drop, [], IfOk};
ghost use Rattle.stan_model_doc.specs.Symbols as sorts;
ghost use Rattle.stan_places.specs.Gives.{Gives};
ghost use Rattle.stan_doc_descent.specs.Parse as parse;
ghost use Rattle.stan_doc_levels.specs.Levels as levels;
ghost use Rattle.stan_doc_texts.specs.Walk.{stop_of, walk};

use crate::brackets::{Turn, is_outside, marked, take};
use stan_model_doc::token::DocToken;
use stan_places::stop::Stop;
use std::alloc::{AllocError, Global};

/// Where a text of any tokens may not go on, besides at a bracket that closes none of its own.
#[derive(Clone, Copy)]
pub enum Border {
    Nowhere,
    /// At a comma outside of its brackets.
    AtComma,
}

// How many tokens the longest text from a place on has, and whether it goes on to where such a text has to end.
fn extent(
    alloc: Global,
    tokens: &[DocToken],
    border: Border,
    place: usize,
) -> Result<(usize, bool), AllocError>
    requires { place ≤ length tokens.now }
    ensures { IfOk result (λ x. x ≡ walk (stop_of border) [] (drop place tokens.now) 0 0) }
{
    let mut awaited = Vec::new(alloc);
    let mut last = 0;
    for index in place..tokens.len() {
        last = marked(&awaited, index - place, last);
        match take(border, &mut awaited, tokens[index].kind)? {
            Turn::Goes => {}
            Turn::Ends => return Ok((last, true)),
            Turn::Breaks => return Ok((last, false)),
        }
    }
    let last = marked(&awaited, tokens.len() - place, last);
    Ok((last, is_outside(&awaited)))
}

/// How many tokens stand before a bracket that closes none of them, if brackets match in them.
#[tactic(auto, using(crate::proofs::Extents::any_walked, crate::proofs::Extents::any_beyond))]
pub fn any_at(alloc: Global, tokens: &[DocToken], place: usize) -> Result<usize, Stop>
    ensures size { Gives (λ x. x) result (parse.any_at tokens.now sorts.Nowhere place) }
    ensures within { IfOk result (λ n. place + n ≤ length tokens.now) }
{
    if place > tokens.len() {
        return Err(Stop::Absent);
    }
    let (size, is_whole) = extent(alloc, tokens, Border::Nowhere, place)?;
    if is_whole {
        Ok(size)
    } else {
        Err(Stop::Absent)
    }
}

/// How many tokens, as many as there can be, stand there in which brackets match and no comma stands outside of them.
#[tactic(auto, using(crate::proofs::Longest::most_walked))]
pub fn most(alloc: Global, tokens: &[DocToken], place: usize) -> Result<usize, AllocError>
    requires { place ≤ length tokens.now }
    ensures { IfOk result (λ n. n ≡ levels.most tokens.now place (length tokens.now)) }
{
    let (size, _) = extent(alloc, tokens, Border::AtComma, place)?;
    Ok(size)
}
