//! Expressions with the bodies of their closures, and statements: what each reads leads back to the other, with less room.

ghost use Rattle.std.specs.Prelude.{◌<◌, ◌^◌, length};
ghost use Rattle.stan_expr_rules.specs.Parse as expressions;
ghost use Rattle.stan_model_statements.specs.Symbols as sorts;
ghost use Rattle.stan_places.specs.Gives.{Gives, at};
ghost use Rattle.stan_stmt_bodies.specs.Values.{leaves_of};
ghost use Rattle.stan_stmt_parts.specs.Gives as spec;
ghost use Rattle.stan_syntax.specs.Tree.{tree_of};

use crate::statements::statement_there;
use stan_model_grammar::token::Token;
use stan_places::stop::Stop;
use stan_stmt_parts::depth::Depth;
use stan_stmt_parts::parser::Parser;
use stan_stmt_trees::{Stmt, Value};
use stan_stmt_values::bodies;
use stan_stmt_values::reader::Nested;
use stan_syntax::Expr;
use std::alloc::Global;

/// What stands a level deeper in an expression, at this stratum, where so many levels are left.
pub fn below(
    alloc: Global,
    tokens: &[Token],
    levels: u32,
    pattern: bool,
    stratum: u8,
    place: usize,
) -> Result<(Expr, usize), Stop>
    requires few { length tokens.now < 2 ^ 32 }
    ensures { Gives (at tree_of) result (expressions.below tokens.now levels pattern stratum place) }
{
    stan_expr_reader::below(alloc, tokens, levels, pattern, stratum, place)
}

/// The expression there, which may be a pattern or not, with the bodies of its closures.
#[cycle(readers)]
pub fn value(
    alloc: Global,
    tokens: &[Token],
    source: &[u8],
    depth: Depth,
    pattern: bool,
    place: usize,
) -> Result<(Value, usize), Stop>
    requires few { length tokens.now < 2 ^ 32 }
    ensures { Gives (at spec.putting) result ((leaves_of source.now).value tokens.now depth.room depth.levels pattern place) }
{
    let reader = Nested {
        source,
        room: depth.room,
        expression: below,
        value,
        statement,
    };
    let parser = Parser {
        alloc,
        tokens,
        reader,
    };
    bodies::value(&parser, &below, depth, pattern, place)
}

/// The statement there, as a part of another.
#[cycle(readers)]
pub fn statement(
    alloc: Global,
    tokens: &[Token],
    source: &[u8],
    depth: Depth,
    place: usize,
) -> Result<(Stmt, usize), Stop>
    requires few { length tokens.now < 2 ^ 32 }
    ensures { Gives (at spec.statement_piece) result (spec.part tokens.now (leaves_of source.now) depth sorts.Statement place) }
{
    let reader = Nested {
        source,
        room: depth.room,
        expression: below,
        value,
        statement,
    };
    let parser = Parser {
        alloc,
        tokens,
        reader,
    };
    statement_there(&parser, depth, place)
}
