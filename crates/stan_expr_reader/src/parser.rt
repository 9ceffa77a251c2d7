//! Expressions with at most so many levels.

ghost use Rattle.std.specs.Prelude.{◌<◌, ◌^◌, length};
ghost use Rattle.stan_places.specs.Gives.{Gives, at};
ghost use Rattle.stan_expr_rules.specs.Parse as parse;
ghost use Rattle.stan_syntax.specs.Tree.{tree_of};

use crate::operators::strata;
use stan_expr_items::grammar::Grammar;
use stan_model_grammar::token::Token;
use stan_places::stop::Stop;
use stan_places::strata::LOOSEST;
use stan_syntax::Expr;
use std::alloc::Global;

/// What stands a level deeper, at this stratum, where so many levels are left.
pub fn below(
    alloc: Global,
    tokens: &[Token],
    depth: u32,
    pattern: bool,
    stratum: u8,
    place: usize,
) -> Result<(Expr, usize), Stop>
    requires few { length tokens.now < 2 ^ 32 }
    ensures { Gives (at tree_of) result (parse.below tokens.now depth pattern stratum place) }
{
    if depth == 0 {
        return Err(Stop::Absent);
    }
    let grammar = Grammar {
        alloc,
        tokens,
        depth: depth - 1,
        read: below,
    };
    strata(&grammar, pattern, stratum, place)
}

/// An expression with at most this many levels.
#[tactic(auto, unfolding(stan_expr_rules::specs::Parse::expression_at))]
pub fn expression_at(
    alloc: Global,
    tokens: &[Token],
    depth: u32,
    place: usize,
) -> Result<(Expr, usize), Stop>
    requires few { length tokens.now < 2 ^ 32 }
    ensures { Gives (at tree_of) result (parse.expression_at tokens.now depth place) }
{
    let grammar = Grammar {
        alloc,
        tokens,
        depth,
        read: below,
    };
    strata(&grammar, false, LOOSEST, place)
}
