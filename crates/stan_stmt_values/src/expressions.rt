//! Expressions, up to an end token and within the levels that may be open, over a function that reads one with so many levels.

ghost use Rattle.std.specs.Prelude.{◌≡◌, ◌<◌, ◌^◌, Some, length};
ghost use Rattle.stan_places.specs.Gives.{Gives, at};
ghost use Rattle.stan_stmt_rules.specs.Parse as rules;
ghost use Rattle.stan_stmt_values.specs.Nests.{ReadsBelow};
ghost use Rattle.stan_syntax.specs.Tree.{tree_of};

use stan_model_grammar::token::{Token, TokenKind};
use stan_places::places::kind_at;
use stan_places::stop::Stop;
use stan_places::strata::{LOOSEST, is_end};
use stan_stmt_parts::depth::MOST;
use stan_syntax::Expr;
use std::alloc::Global;

/// The expression there, which may be a pattern or not, where so many levels are open. The bodies of its closures are held.
pub fn expression<E: Fn(Global, &[Token], u32, bool, u8, usize) -> Result<(Expr, usize), Stop>>(
    read: &E,
    alloc: Global,
    tokens: &[Token],
    levels: u32,
    pattern: bool,
    place: usize,
) -> Result<(Expr, usize), Stop>
    requires few { length tokens.now < 2 ^ 32 }
    requires reads { ReadsBelow (E.pre read.now) (E.post read.now) }
    ensures { Gives (at tree_of) result (rules.expression tokens.now levels pattern place) }
{
    if levels > MOST {
        return Err(Stop::Absent);
    }
    let (e, to) = read(alloc, tokens, MOST - levels + 1, pattern, LOOSEST, place)?;
    if !is_end(kind_at(tokens, to)) {
        drop(e);
        return Err(Stop::Absent);
    }
    if e.depth() > MOST - levels {
        drop(e);
        return Err(Stop::Absent);
    }
    Ok((e, to))
}

/// The kind of the token behind the expression there, which may be a pattern. Where none is read, none stands there.
pub fn kind_behind<E: Fn(Global, &[Token], u32, bool, u8, usize) -> Result<(Expr, usize), Stop>>(
    read: &E,
    alloc: Global,
    tokens: &[Token],
    levels: u32,
    place: usize,
) -> Result<TokenKind, Stop>
    requires few { length tokens.now < 2 ^ 32 }
    requires reads { ReadsBelow (E.pre read.now) (E.post read.now) }
    ensures { Gives (λ x. x) result (Some (rules.behind tokens.now levels place)) }
{
    match expression(read, alloc, tokens, levels, true, place) {
        Err(Stop::Memory) => Err(Stop::Memory),
        Err(Stop::Absent) => Ok(TokenKind::End),
        Ok((e, to)) => {
            drop(e);
            Ok(kind_at(tokens, to))
        }
    }
}
