//! The class of a `new`.

ghost use Rattle.std.specs.Prelude.{◌≡◌, ◌<◌, Some, length, slice_get};
ghost use Rattle.stan_places.specs.Gives.{Gives, at};
ghost use Rattle.stan_expr_items.specs.Nests.{Nests};
ghost use Rattle.stan_expr_rules.specs.Parse as parse;
ghost use Rattle.stan_syntax.specs.Tree.{class_of, form_of};

use crate::steps::class_suffixes;
use sqlite_items::Boxed;
use stan_expr_items::grammar::Grammar;
use stan_model_grammar::token::{Token, TokenKind};
use stan_places::places::{after_next, token_at};
use stan_places::stop::Stop;
use stan_places::strata::names_class;
use stan_syntax::{ClassReference, Expr, Form};
use std::alloc::Global;

/// A name before `::`, with a variable behind it or not.
#[tactic(auto, using(stan_syntax::proofs::Layers::layers), unfolding(stan_expr_rules::specs::Parse::behind_class, stan_expr_rules::specs::Parse::scoped_class))]
fn behind_class<F: Fn(Global, &[Token], u32, bool, u8, usize) -> Result<(Expr, usize), Stop>>(
    grammar: &Grammar<'_, F>,
    name: Token,
    place: usize,
) -> Result<(ClassReference, usize), Stop>
    requires nests { Nests grammar.now.depth (F.pre grammar.now.read) (F.post grammar.now.read) }
    requires there { place < length grammar.now.tokens.now }
    ensures { Gives (at class_of) result (parse.behind_class grammar.now.tokens.now (parse.below grammar.now.tokens.now grammar.now.depth) name place) }
{
    let Some(from) = after_next(grammar.tokens, TokenKind::Variable, place) else {
        return Ok((ClassReference::Named(name), place));
    };
    let Some(variable) = token_at(grammar.tokens, place + 1) else {
        return Err(Stop::Absent);
    };
    let (suffixes, to) = class_suffixes(grammar, from)?;
    Ok((ClassReference::Scoped(name, variable, suffixes), to))
}

#[tactic(auto, using(stan_syntax::proofs::Layers::layers), unfolding(stan_expr_rules::specs::Parse::named_class, stan_expr_rules::specs::Places::after, stan_expr_rules::specs::Places::same_kind))]
fn named_class<F: Fn(Global, &[Token], u32, bool, u8, usize) -> Result<(Expr, usize), Stop>>(
    grammar: &Grammar<'_, F>,
    name: Token,
    place: usize,
) -> Result<(ClassReference, usize), Stop>
    requires { Nests grammar.now.depth (F.pre grammar.now.read) (F.post grammar.now.read) }
    ensures { Gives (at class_of) result (parse.named_class grammar.now.tokens.now (parse.below grammar.now.tokens.now grammar.now.depth) name place) }
{
    match token_at(grammar.tokens, place) {
        Some(next) if next.kind == TokenKind::DoubleColon => behind_class(grammar, name, place),
        _ => Ok((ClassReference::Named(name), place)),
    }
}

#[tactic(auto, using(stan_syntax::proofs::Layers::layers), unfolding(stan_expr_rules::specs::Parse::variable_class, stan_expr_rules::specs::Parse::computed_class, stan_expr_rules::specs::Places::same_kind))]
fn class_with<F: Fn(Global, &[Token], u32, bool, u8, usize) -> Result<(Expr, usize), Stop>>(
    grammar: &Grammar<'_, F>,
    first: Token,
    place: usize,
) -> Result<(ClassReference, usize), Stop>
    requires nests { Nests grammar.now.depth (F.pre grammar.now.read) (F.post grammar.now.read) }
    requires there { slice_get grammar.now.tokens.now place ≡ Some first }
    ensures { Gives (at class_of) result (parse.class_by grammar.now.tokens.now (parse.below grammar.now.tokens.now grammar.now.depth) first place) }
{
    if first.kind == TokenKind::Variable {
        let (suffixes, to) = class_suffixes(grammar, place + 1)?;
        Ok((ClassReference::Variable(first, suffixes), to))
    } else if names_class(first.kind) {
        named_class(grammar, first, place + 1)
    } else {
        let (e, to) = grammar.enclosed(
            TokenKind::LeftParenthesis,
            TokenKind::RightParenthesis,
            place,
        )?;
        Ok((ClassReference::Computed(Boxed::new(grammar.alloc, e)?), to))
    }
}

#[tactic(auto, using(stan_syntax::proofs::Layers::layers), unfolding(stan_expr_rules::specs::Parse::class_reference))]
fn class_reference<F: Fn(Global, &[Token], u32, bool, u8, usize) -> Result<(Expr, usize), Stop>>(
    grammar: &Grammar<'_, F>,
    place: usize,
) -> Result<(ClassReference, usize), Stop>
    requires { Nests grammar.now.depth (F.pre grammar.now.read) (F.post grammar.now.read) }
    ensures { Gives (at class_of) result (parse.class_reference grammar.now.tokens.now (parse.below grammar.now.tokens.now grammar.now.depth) place) }
{
    match token_at(grammar.tokens, place) {
        Some(first) => class_with(grammar, first, place),
        None => Err(Stop::Absent),
    }
}

/// Behind `new`.
#[tactic(auto, using(stan_syntax::proofs::Layers::layers), unfolding(stan_expr_rules::specs::Parse::new))]
pub fn new<F: Fn(Global, &[Token], u32, bool, u8, usize) -> Result<(Expr, usize), Stop>>(
    grammar: &Grammar<'_, F>,
    place: usize,
) -> Result<(Form, usize), Stop>
    requires { Nests grammar.now.depth (F.pre grammar.now.read) (F.post grammar.now.read) }
    ensures { Gives (at form_of) result (parse.new grammar.now.tokens.now (parse.below grammar.now.tokens.now grammar.now.depth) place) }
{
    let (class, to) = class_reference(grammar, place)?;
    let (arguments, to) = grammar.may_be_called(to)?;
    Ok((Form::New(class, arguments), to))
}
