//! Operators behind an operand, at one stratum.

ghost use Rattle.std.specs.Prelude.{◌≡◌, ◌<◌, Some, false, length, map};
ghost use Rattle.stan_expr_operators.specs.Branches as spec;
ghost use Rattle.stan_places.specs.Gives.{Gives, at, turn};
ghost use Rattle.stan_expr_items.specs.Nests.{Nests};
ghost use Rattle.stan_expr_rules.specs.Parse as parse;
ghost use Rattle.stan_syntax.specs.Tree.{tree_of, operation_of};

use sqlite_items::{Boxed, Items};
use stan_expr_items::grammar::Grammar;
use stan_model_grammar::operators::{BinaryOperator, Fixity};
use stan_model_grammar::token::{Token, TokenKind};
use stan_places::places::{joins_at, operator_at, token_at};
use stan_places::stop::Stop;
use stan_places::strata::{
    COALESCE, ELVIS, LOOSEST, binary_size, binary_stratum, fixity, right_side, stands_conditional,
    tighter,
};
use stan_syntax::{Expr, Form, Operation, is_pattern};
use std::alloc::Global;

#[tactic(auto, using(stan_syntax::proofs::Layers::layers))]
fn with_operations(alloc: Global, e: Expr, operations: Items<Operation>) -> Result<Expr, Stop>
    ensures { Gives tree_of result (Some (parse.with_operations (tree_of e) (map operation_of operations))) }
{
    if operations.is_empty() {
        return Ok(e);
    }
    let first = e.first;
    let form = Form::Chain(Boxed::new(alloc, e)?, operations);
    Ok(Expr { first, form })
}

/// At the operator.
#[tactic(auto, using(stan_syntax::proofs::Layers::layers), unfolding(stan_expr_rules::specs::Parse::operation_with))]
fn operation_with<F: Fn(Global, &[Token], u32, bool, u8, usize) -> Result<(Expr, usize), Stop>>(
    grammar: &Grammar<'_, F>,
    operator: BinaryOperator,
    place: usize,
) -> Result<(Operation, usize), Stop>
    requires { Nests grammar.now.depth (F.pre grammar.now.read) (F.post grammar.now.read) }
    ensures { Gives (at operation_of) result (parse.operation_with grammar.now.tokens.now (parse.below grammar.now.tokens.now grammar.now.depth) operator place) }
{
    let Some(token) = token_at(grammar.tokens, place) else {
        return Err(Stop::Absent);
    };
    let stratum = tighter(binary_stratum(operator));
    let (operand, to) = grammar.below(false, stratum, place + binary_size(operator))?;
    let operation = Operation {
        token,
        operator,
        operand,
    };
    Ok((operation, to))
}

/// A further operator of a stratum with its operand, if one comes next.
#[tactic(auto, using(stan_syntax::proofs::Layers::layers), unfolding(stan_expr_rules::specs::Parse::operation_at))]
fn operation<F: Fn(Global, &[Token], u32, bool, u8, usize) -> Result<(Expr, usize), Stop>>(
    grammar: &Grammar<'_, F>,
    stratum: u8,
    place: usize,
) -> Result<Option<(Operation, usize)>, Stop>
    requires { Nests grammar.now.depth (F.pre grammar.now.read) (F.post grammar.now.read) }
    ensures { Gives (turn operation_of) result (parse.operation_at grammar.now.tokens.now (parse.below grammar.now.tokens.now grammar.now.depth) stratum place) }
{
    match operator_at(grammar.tokens, place) {
        Some(operator) if binary_stratum(operator) == stratum => Ok(Some(operation_with(
            grammar, operator, place,
        )?)),
        _ => Ok(None),
    }
}

#[tactic(auto, using(stan_syntax::proofs::Layers::layers), unfolding(stan_expr_rules::specs::Parse::operations, stan_expr_rules::specs::Parse::all))]
fn operations<F: Fn(Global, &[Token], u32, bool, u8, usize) -> Result<(Expr, usize), Stop>>(
    grammar: &Grammar<'_, F>,
    stratum: u8,
    from: usize,
) -> Result<(Items<Operation>, usize), Stop>
    requires { Nests grammar.now.depth (F.pre grammar.now.read) (F.post grammar.now.read) }
    ensures { Gives (at (map operation_of)) result (parse.operations grammar.now.tokens.now (parse.below grammar.now.tokens.now grammar.now.depth) stratum from) }
{
    let mut found = Items::new(grammar.alloc);
    let mut place = from;
    for _turn in 0..grammar.tokens.len() + 1 {
        match operation(grammar, stratum, place)? {
            None => return Ok((found, place)),
            Some((item, to)) => {
                found.push(item)?;
                place = to;
            }
        }
    }
    Err(Stop::Absent)
}

#[tactic(auto, unfolding(stan_expr_rules::specs::Parse::chain))]
fn chain<F: Fn(Global, &[Token], u32, bool, u8, usize) -> Result<(Expr, usize), Stop>>(
    grammar: &Grammar<'_, F>,
    stratum: u8,
    e: Expr,
    place: usize,
) -> Result<(Expr, usize), Stop>
    requires { Nests grammar.now.depth (F.pre grammar.now.read) (F.post grammar.now.read) }
    ensures { Gives (at tree_of) result (parse.chain grammar.now.tokens.now (parse.below grammar.now.tokens.now grammar.now.depth) stratum (tree_of e) place) }
{
    let (operations, to) = operations(grammar, stratum, place)?;
    Ok((with_operations(grammar.alloc, e, operations)?, to))
}

/// At the operator.
#[tactic(auto, using(stan_syntax::proofs::Layers::layers), unfolding(stan_expr_rules::specs::Parse::binary))]
fn binary<F: Fn(Global, &[Token], u32, bool, u8, usize) -> Result<(Expr, usize), Stop>>(
    grammar: &Grammar<'_, F>,
    left: Expr,
    operator: BinaryOperator,
    place: usize,
) -> Result<(Expr, usize), Stop>
    requires { Nests grammar.now.depth (F.pre grammar.now.read) (F.post grammar.now.read) }
    ensures { Gives (at tree_of) result (parse.binary grammar.now.tokens.now (parse.below grammar.now.tokens.now grammar.now.depth) (tree_of left) operator place) }
{
    let Some(token) = token_at(grammar.tokens, place) else {
        return Err(Stop::Absent);
    };
    let side = right_side(fixity(operator), binary_stratum(operator));
    let (right, to) = grammar.below(false, side, place + binary_size(operator))?;
    let first = left.first;
    let left = Boxed::new(grammar.alloc, left)?;
    let form = Form::Binary(left, token, operator, Boxed::new(grammar.alloc, right)?);
    Ok((Expr { first, form }, to))
}

#[tactic(auto)]
fn boxed<F: Fn(Global, &[Token], u32, bool, u8, usize) -> Result<(Expr, usize), Stop>>(
    grammar: &Grammar<'_, F>,
    stratum: u8,
    place: usize,
) -> Result<(Boxed<Expr>, usize), Stop>
    requires { Nests grammar.now.depth (F.pre grammar.now.read) (F.post grammar.now.read) }
    ensures { Gives (at tree_of) result (parse.below grammar.now.tokens.now grammar.now.depth false stratum place) }
{
    let (e, to) = grammar.below(false, stratum, place)?;
    Ok((Boxed::new(grammar.alloc, e)?, to))
}

/// The second and the third part of `? :`.
#[tactic(auto, unfolding(crate::specs::Branches::branches))]
fn branches<F: Fn(Global, &[Token], u32, bool, u8, usize) -> Result<(Expr, usize), Stop>>(
    grammar: &Grammar<'_, F>,
    place: usize,
) -> Result<((Boxed<Expr>, Boxed<Expr>), usize), Stop>
    requires { Nests grammar.now.depth (F.pre grammar.now.read) (F.post grammar.now.read) }
    ensures { Gives (at (λ x. (tree_of x.0, tree_of x.1))) result (spec.branches grammar.now.tokens.now (parse.below grammar.now.tokens.now grammar.now.depth) place) }
{
    let (then, to) = boxed(grammar, LOOSEST, place)?;
    let from = grammar.expect(TokenKind::Colon, to)?;
    let (otherwise, to) = boxed(grammar, COALESCE, from)?;
    Ok(((then, otherwise), to))
}

/// Behind the `?`.
#[tactic(auto, using(stan_syntax::proofs::Layers::layers, crate::proofs::BranchLemmas::conditional_is))]
fn conditional<F: Fn(Global, &[Token], u32, bool, u8, usize) -> Result<(Expr, usize), Stop>>(
    grammar: &Grammar<'_, F>,
    condition: Expr,
    place: usize,
) -> Result<(Expr, usize), Stop>
    requires { Nests grammar.now.depth (F.pre grammar.now.read) (F.post grammar.now.read) }
    ensures { Gives (at tree_of) result (parse.conditional grammar.now.tokens.now (parse.below grammar.now.tokens.now grammar.now.depth) (tree_of condition) place) }
{
    let first = condition.first;
    let condition = Boxed::new(grammar.alloc, condition)?;
    let ((then, otherwise), to) = branches(grammar, place)?;
    let form = Form::Conditional(condition, then, otherwise);
    Ok((Expr { first, form }, to))
}

/// An operation of a stratum with this left side, at its operator.
#[tactic(auto, unfolding(stan_expr_rules::specs::Parse::operated))]
fn operated<F: Fn(Global, &[Token], u32, bool, u8, usize) -> Result<(Expr, usize), Stop>>(
    grammar: &Grammar<'_, F>,
    stratum: u8,
    e: Expr,
    place: usize,
) -> Result<(Expr, usize), Stop>
    requires nests { Nests grammar.now.depth (F.pre grammar.now.read) (F.post grammar.now.read) }
    requires there { place < length grammar.now.tokens.now }
    ensures { Gives (at tree_of) result (parse.operated grammar.now.tokens.now (parse.below grammar.now.tokens.now grammar.now.depth) stratum (tree_of e) place) }
{
    if is_pattern(&e) {
        drop(e);
        return Err(Stop::Absent);
    }
    if stratum == ELVIS && stands_conditional(e.production()) {
        return Ok((e, place));
    }
    match operator_at(grammar.tokens, place) {
        None => conditional(grammar, e, place + 1),
        Some(operator) => match fixity(operator) {
            Fixity::Left => chain(grammar, binary_stratum(operator), e, place),
            _ => binary(grammar, e, operator, place),
        },
    }
}

/// What goes on behind an operand at this stratum, or the operand alone.
#[tactic(auto, unfolding(stan_expr_rules::specs::Parse::stratum))]
pub fn at_stratum<F: Fn(Global, &[Token], u32, bool, u8, usize) -> Result<(Expr, usize), Stop>>(
    grammar: &Grammar<'_, F>,
    stratum: u8,
    e: Expr,
    place: usize,
) -> Result<(Expr, usize), Stop>
    requires { Nests grammar.now.depth (F.pre grammar.now.read) (F.post grammar.now.read) }
    ensures { Gives (at tree_of) result (parse.stratum grammar.now.tokens.now (parse.below grammar.now.tokens.now grammar.now.depth) stratum (tree_of e) place) }
{
    if joins_at(grammar.tokens, place) != stratum {
        return Ok((e, place));
    }
    if place < grammar.tokens.len() {
        operated(grammar, stratum, e, place)
    } else {
        drop(e);
        Err(Stop::Absent)
    }
}
