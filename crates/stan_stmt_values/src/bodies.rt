//! Expressions with the bodies of their closures, which are read from left to right.

ghost use Rattle.std.specs.Prelude.{◌≡◌, ◌<◌, ◌≤◌, IfOk, map};
ghost use Rattle.stan_model_files.specs.Shapes as shapes;
ghost use Rattle.stan_model_grammar.specs.Sites.{bodies_among};
ghost use Rattle.stan_places.specs.Gives.{Gives, at};
ghost use Rattle.stan_sites.specs.Sites.{held_of, site_of};
ghost use Rattle.stan_stmt_bodies.specs.Values.{body_at, bodies_at, valued};
ghost use Rattle.stan_stmt_parts.specs.Gives as spec;
ghost use Rattle.stan_stmt_trees.specs.Tree.{body_of};
ghost use Rattle.stan_stmt_values.specs.Held.{closed, shape_of, shapes_of};
ghost use Rattle.stan_stmt_values.specs.Nests.{ReadsBelow};

use crate::expressions::expression;
use sqlite_items::Items;
use stan_model_grammar::token::{Token, TokenKind};
use stan_places::stop::Stop;
use stan_sites::{HeldBody, Site, sites_of};
use stan_stmt_lists::blocks::Statement;
use stan_stmt_parts::depth::{Depth, MOST};
use stan_stmt_parts::parser::{Parser, Reader};
use stan_stmt_trees::{ReadBody, Stmt, Value};
use stan_syntax::Expr;
use std::alloc::Global;

/// Statements up to a `}`, and the place behind it.
#[tactic(auto, using(stan_stmt_lists::proofs::ListLemmas::statements_are), unfolding(stan_stmt_parts::specs::Gives::inside))]
fn inside<R: Reader>(
    parser: &Parser<'_, R>,
    depth: Depth,
    from: usize,
) -> Result<(Items<Stmt>, usize), Stop>
    requires room { depth.room < R.room parser.now.reader }
    requires ready { R.ready parser.now.reader }
    ensures { Gives (at closed) result (spec.inside parser.now.tokens.now (R.leaves parser.now.reader) depth shapes.inside from) }
{
    let (statements, to) = parser.all::<Statement>(depth, from)?;
    let to = parser.expect(TokenKind::RightBrace, to)?;
    Ok((statements, to))
}

/// The body of a closure, where this is the depth around its expression. It ends at the place of its `}`.
#[tactic(auto, using(crate::proofs::BodyLemmas::body_is, crate::proofs::Layers::made))]
fn read_body<R: Reader>(
    parser: &Parser<'_, R>,
    depth: Depth,
    held: HeldBody,
) -> Result<ReadBody, Stop>
    requires room { depth.room ≤ R.room parser.now.reader }
    requires ready { R.ready parser.now.reader }
    ensures read { Gives shape_of result (body_at parser.now.tokens.now (R.leaves parser.now.reader).named ((R.leaves parser.now.reader).value parser.now.tokens.now) depth.room depth.levels (held_of held)) }
    ensures held { IfOk result (λ b. (body_of b).held ≡ held_of held) }
{
    if depth.room == 0 {
        return Err(Stop::Absent);
    }
    if depth.levels > MOST {
        return Err(Stop::Absent);
    }
    let levels = depth.levels + held.levels as u32 + 1;
    if levels > MOST {
        return Err(Stop::Absent);
    }
    let inner = Depth {
        room: depth.room - 1,
        levels,
    };
    let (statements, to) = inside(parser, inner, held.from as usize)?;
    if to != held.to as usize + 1 {
        drop(statements);
        return Err(Stop::Absent);
    }
    Ok(ReadBody {
        levels: held.levels as u32,
        from: held.from,
        to: held.to,
        statements,
    })
}

/// Those of the bodies among these sites.
fn read_bodies<R: Reader>(
    parser: &Parser<'_, R>,
    depth: Depth,
    sites: &[Site],
) -> Result<Items<ReadBody>, Stop>
    requires room { depth.room ≤ R.room parser.now.reader }
    requires ready { R.ready parser.now.reader }
    ensures { Gives shapes_of result (bodies_at parser.now.tokens.now (R.leaves parser.now.reader).named ((R.leaves parser.now.reader).value parser.now.tokens.now) depth.room depth.levels (bodies_among (map site_of sites.now))) }
{
    let mut found = Items::new(parser.alloc);
    for site in sites {
        match site {
            Site::Call(_) => {}
            Site::Body(held) => found.push(read_body(parser, depth, *held)?)?,
        }
    }
    Ok(found)
}

/// The expression there, which may be a pattern or not, with its bodies.
#[tactic(auto, using(crate::proofs::BodyLemmas::putting_made))]
pub fn value<
    R: Reader,
    E: Fn(Global, &[Token], u32, bool, u8, usize) -> Result<(Expr, usize), Stop>,
>(
    parser: &Parser<'_, R>,
    read: &E,
    depth: Depth,
    pattern: bool,
    place: usize,
) -> Result<(Value, usize), Stop>
    requires room { depth.room ≤ R.room parser.now.reader }
    requires ready { R.ready parser.now.reader }
    requires reads { ReadsBelow (E.pre read.now) (E.post read.now) }
    ensures { Gives (at spec.putting) result (valued parser.now.tokens.now (R.leaves parser.now.reader).named ((R.leaves parser.now.reader).value parser.now.tokens.now) depth.room depth.levels pattern place) }
{
    let (tree, to) = expression(
        read,
        parser.alloc,
        parser.tokens,
        depth.levels,
        pattern,
        place,
    )?;
    let Ok(sites) = sites_of(parser.alloc, &tree) else {
        return Err(Stop::Memory);
    };
    let bodies = read_bodies(parser, depth, &sites)?;
    Ok((Value { tree, bodies }, to))
}
