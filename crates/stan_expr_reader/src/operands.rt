//! Operands: what stands first with what is appended to it, assignments, and operators before an operand.

ghost use Rattle.std.specs.Prelude.{◌≡◌, ◌<◌, ◌+◌, ◌^◌, Some, slice_get, map};
ghost use Rattle.stan_model_grammar.specs.declared.operators.AssignmentOperator.{AssignmentOperator};
ghost use Rattle.stan_model_grammar.specs.Strata.{assignment_size};
ghost use Rattle.stan_places.specs.Gives.{Gives, at};
ghost use Rattle.stan_expr_items.specs.Nests.{Nests};
ghost use Rattle.stan_expr_rules.specs.Parse as parse;
ghost use Rattle.stan_syntax.specs.Tree.{tree_of, suffix_of};

use sqlite_items::{Boxed, Items};
use stan_expr_forms::form;
use stan_expr_items::grammar::Grammar;
use stan_expr_suffixes::{new, suffixes};
use stan_model_grammar::operators::AssignmentOperator;
use stan_model_grammar::token::{Token, TokenKind};
use stan_places::places::{assigning_at, token_at};
use stan_places::stop::Stop;
use stan_places::strata::{ASSIGNMENT, assignment_size, prefix_of, prefix_stratum, stands_arrow};
use stan_syntax::{Expr, Form, Suffix, is_assignable, is_pattern};
use std::alloc::Global;

#[tactic(auto, using(stan_syntax::proofs::Layers::layers))]
fn with_suffixes(
    alloc: Global,
    e: Expr,
    suffixes: Items<Suffix>,
    place: usize,
) -> Result<(Expr, usize), Stop>
    ensures { Gives (at tree_of) result (parse.with_suffixes (tree_of e) (map suffix_of suffixes) place) }
{
    if suffixes.is_empty() {
        return Ok((e, place));
    }
    if is_pattern(&e) {
        return Err(Stop::Absent);
    }
    let first = e.first;
    let form = Form::Post(Boxed::new(alloc, e)?, suffixes);
    Ok((Expr { first, form }, place))
}

#[tactic(auto, unfolding(stan_expr_rules::specs::Parse::suffixed))]
fn suffixed<F: Fn(Global, &[Token], u32, bool, u8, usize) -> Result<(Expr, usize), Stop>>(
    grammar: &Grammar<'_, F>,
    e: Expr,
    place: usize,
) -> Result<(Expr, usize), Stop>
    requires { Nests grammar.now.depth (F.pre grammar.now.read) (F.post grammar.now.read) }
    ensures { Gives (at tree_of) result (parse.suffixed grammar.now.tokens.now (parse.below grammar.now.tokens.now grammar.now.depth) (tree_of e) place) }
{
    let (suffixes, to) = suffixes(grammar, place)?;
    with_suffixes(grammar.alloc, e, suffixes, to)
}

/// What stands alone, at its first token.
#[tactic(auto, using(stan_syntax::proofs::Layers::layers), unfolding(stan_expr_rules::specs::Parse::atom_with))]
fn atom<F: Fn(Global, &[Token], u32, bool, u8, usize) -> Result<(Expr, usize), Stop>>(
    grammar: &Grammar<'_, F>,
    first: Token,
    place: usize,
) -> Result<(Expr, usize), Stop>
    requires nests { Nests grammar.now.depth (F.pre grammar.now.read) (F.post grammar.now.read) }
    requires there { slice_get grammar.now.tokens.now place ≡ Some first }
    ensures { Gives (at tree_of) result (parse.atom_with grammar.now.tokens.now (parse.below grammar.now.tokens.now grammar.now.depth) first place) }
{
    let (form, to) = form(grammar, first.kind, place)?;
    Ok((Expr { first, form }, to))
}

/// Nothing is appended to an arrow function.
#[tactic(auto, unfolding(stan_expr_rules::specs::Parse::post_with))]
fn post_with<F: Fn(Global, &[Token], u32, bool, u8, usize) -> Result<(Expr, usize), Stop>>(
    grammar: &Grammar<'_, F>,
    first: Token,
    place: usize,
) -> Result<(Expr, usize), Stop>
    requires nests { Nests grammar.now.depth (F.pre grammar.now.read) (F.post grammar.now.read) }
    requires there { slice_get grammar.now.tokens.now place ≡ Some first }
    ensures { Gives (at tree_of) result (parse.post_with grammar.now.tokens.now (parse.below grammar.now.tokens.now grammar.now.depth) first place) }
{
    let (e, to) = atom(grammar, first, place)?;
    if stands_arrow(e.production()) {
        Ok((e, to))
    } else {
        suffixed(grammar, e, to)
    }
}

/// Nothing is appended to a `new`.
#[tactic(auto, using(stan_syntax::proofs::Layers::layers), unfolding(stan_expr_rules::specs::Parse::post, stan_expr_rules::specs::Parse::new_with, stan_expr_rules::specs::Places::same_kind))]
fn post<F: Fn(Global, &[Token], u32, bool, u8, usize) -> Result<(Expr, usize), Stop>>(
    grammar: &Grammar<'_, F>,
    first: Token,
    place: usize,
) -> Result<(Expr, usize), Stop>
    requires nests { Nests grammar.now.depth (F.pre grammar.now.read) (F.post grammar.now.read) }
    requires there { slice_get grammar.now.tokens.now place ≡ Some first }
    ensures { Gives (at tree_of) result (parse.post grammar.now.tokens.now (parse.below grammar.now.tokens.now grammar.now.depth) first place) }
{
    if first.kind == TokenKind::New {
        let (form, to) = new(grammar, place + 1)?;
        Ok((Expr { first, form }, to))
    } else {
        post_with(grammar, first, place)
    }
}

#[tactic(auto, using(stan_syntax::proofs::Layers::layers), unfolding(stan_expr_rules::specs::Parse::assigned))]
fn assigned<F: Fn(Global, &[Token], u32, bool, u8, usize) -> Result<(Expr, usize), Stop>>(
    grammar: &Grammar<'_, F>,
    target: Expr,
    operator: AssignmentOperator,
    place: usize,
) -> Result<(Expr, usize), Stop>
    requires { Nests grammar.now.depth (F.pre grammar.now.read) (F.post grammar.now.read) }
    ensures { Gives (at tree_of) result (parse.assigned grammar.now.tokens.now (parse.below grammar.now.tokens.now grammar.now.depth) (tree_of target) operator place) }
{
    let (value, to) = grammar.below(false, ASSIGNMENT, place)?;
    let first = target.first;
    let target = Boxed::new(grammar.alloc, target)?;
    let form = Form::Assignment(target, operator, Boxed::new(grammar.alloc, value)?);
    Ok((Expr { first, form }, to))
}

/// What stands before an assignment, or before none.
#[tactic(auto)]
fn target_by<F: Fn(Global, &[Token], u32, bool, u8, usize) -> Result<(Expr, usize), Stop>>(
    grammar: &Grammar<'_, F>,
    pattern: bool,
    operator: Option<AssignmentOperator>,
    e: Expr,
    place: usize,
) -> Result<(Expr, usize), Stop>
    requires nests { Nests grammar.now.depth (F.pre grammar.now.read) (F.post grammar.now.read) }
    requires there { (o : AssignmentOperator) → operator ≡ Some o → place + assignment_size o < 2 ^ 64 }
    ensures { Gives (at tree_of) result (parse.target_by grammar.now.tokens.now (parse.below grammar.now.tokens.now grammar.now.depth) pattern operator (tree_of e) place) }
{
    match operator {
        None => {
            if is_pattern(&e) && !pattern {
                Err(Stop::Absent)
            } else {
                Ok((e, place))
            }
        }
        Some(operator) => {
            if is_assignable(operator, &e) {
                assigned(grammar, e, operator, place + assignment_size(operator))
            } else {
                Err(Stop::Absent)
            }
        }
    }
}

#[tactic(auto, unfolding(stan_expr_rules::specs::Parse::target))]
fn target<F: Fn(Global, &[Token], u32, bool, u8, usize) -> Result<(Expr, usize), Stop>>(
    grammar: &Grammar<'_, F>,
    pattern: bool,
    first: Token,
    place: usize,
) -> Result<(Expr, usize), Stop>
    requires nests { Nests grammar.now.depth (F.pre grammar.now.read) (F.post grammar.now.read) }
    requires there { slice_get grammar.now.tokens.now place ≡ Some first }
    ensures { Gives (at tree_of) result (parse.target grammar.now.tokens.now (parse.below grammar.now.tokens.now grammar.now.depth) pattern first place) }
{
    let (e, to) = post(grammar, first, place)?;
    target_by(grammar, pattern, assigning_at(grammar.tokens, to), e, to)
}

/// The operand at a place, with the assignment that it may begin, and the place behind it.
#[tactic(auto, using(stan_syntax::proofs::Layers::layers), unfolding(stan_expr_rules::specs::Parse::operand, stan_expr_rules::specs::Parse::prefixed))]
pub fn operand<F: Fn(Global, &[Token], u32, bool, u8, usize) -> Result<(Expr, usize), Stop>>(
    grammar: &Grammar<'_, F>,
    pattern: bool,
    place: usize,
) -> Result<(Expr, usize), Stop>
    requires { Nests grammar.now.depth (F.pre grammar.now.read) (F.post grammar.now.read) }
    ensures { Gives (at tree_of) result (parse.operand grammar.now.tokens.now (parse.below grammar.now.tokens.now grammar.now.depth) pattern place) }
{
    let Some(first) = token_at(grammar.tokens, place) else {
        return Err(Stop::Absent);
    };
    let Some(operator) = prefix_of(first.kind) else {
        return target(grammar, pattern, first, place);
    };
    let (e, to) = grammar.below(false, prefix_stratum(operator), place + 1)?;
    let form = Form::Prefix(operator, Boxed::new(grammar.alloc, e)?);
    Ok((Expr { first, form }, to))
}
