//! Types with at most so many levels.

ghost use Rattle.std.specs.Prelude.{◌≤◌, ◌<◌, ◌+◌, ◌^◌, length};
ghost use Rattle.stan_model_doc.specs.Symbols as sorts;
ghost use Rattle.stan_places.specs.Gives.{Gives, at};
ghost use Rattle.stan_doc_trees.specs.Tree.{written_of, unary_of};
ghost use Rattle.stan_doc_parts.specs.Gives as spec;
ghost use Rattle.stan_doc_parts.specs.Nests.{Nests};

use crate::conditions::conditional;
use crate::lists::{plain_type, unary_at};
use stan_doc_parts::parser::Parser;
use stan_doc_trees::{Unary, Written};
use stan_model_doc::token::DocToken;
use stan_places::stop::Stop;
use std::alloc::Global;

/// A type, over what reads one a level deeper.
#[tactic(auto, using(crate::proofs::Parting::part_written))]
pub fn written_at<
    W: Fn(Global, &[DocToken], usize, usize) -> Result<(Written, usize), Stop>,
    U: Fn(Global, &[DocToken], usize, usize) -> Result<(Unary, usize), Stop>,
>(parser: &Parser<'_, W, U>, levels: usize, place: usize) -> Result<(Written, usize), Stop>
    requires nests { Nests parser.now.levels (W.pre parser.now.read_written) (W.post parser.now.read_written) (U.pre parser.now.read_unary) (U.post parser.now.read_unary) }
    requires room { levels ≤ parser.now.levels + 1 }
    ensures { Gives (at written_of) result (spec.part parser.now.tokens.now levels sorts.Written place) }
{
    match conditional(parser, levels, place) {
        Ok(found) => Ok(found),
        Err(Stop::Memory) => Err(Stop::Memory),
        Err(Stop::Absent) => plain_type(parser, levels, place),
    }
}

/// The type at a place, with at most so many levels, and the place behind it.
#[cycle(types)]
#[tactic(auto, using(crate::proofs::Parting::no_written))]
pub fn written(
    alloc: Global,
    tokens: &[DocToken],
    levels: usize,
    place: usize,
) -> Result<(Written, usize), Stop>
    requires few { length tokens.now < 2 ^ 32 }
    ensures { Gives (at written_of) result (spec.part tokens.now levels sorts.Written place) }
{
    if levels == 0 {
        return Err(Stop::Absent);
    }
    let parser = Parser {
        alloc,
        tokens,
        levels: levels - 1,
        read_written: written,
        read_unary: unary,
    };
    written_at(&parser, levels, place)
}

/// The same of a type without `|` and `&`.
#[cycle(types)]
#[tactic(auto, using(crate::proofs::Parting::no_unary))]
pub fn unary(
    alloc: Global,
    tokens: &[DocToken],
    levels: usize,
    place: usize,
) -> Result<(Unary, usize), Stop>
    requires few { length tokens.now < 2 ^ 32 }
    ensures { Gives (at unary_of) result (spec.part tokens.now levels sorts.Unary place) }
{
    if levels == 0 {
        return Err(Stop::Absent);
    }
    let parser = Parser {
        alloc,
        tokens,
        levels: levels - 1,
        read_written: written,
        read_unary: unary,
    };
    unary_at(&parser, levels, place)
}
