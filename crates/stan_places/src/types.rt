//! Written types, and what stands before a parameter.

ghost use Rattle.std.specs.Prelude.{◌≡◌};
ghost use Rattle.stan_model_grammar.specs.Strata as strata;
ghost use Rattle.stan_places.specs.Gives.{Gives, at, turn};
ghost use Rattle.stan_expr_rules.specs.Parse as parse;
ghost use Rattle.stan_syntax.specs.Tree.{type_of, may_type};

use crate::places::{after, kind_at, token_at};
use crate::stop::Stop;
use crate::strata::{names_type, visibility_of};
use sqlite_items::Items;
use stan_model_grammar::operators::Visibility;
use stan_model_grammar::token::{Token, TokenKind};
use stan_syntax::TypeTree;
use std::alloc::Global;

/// A name of a type.
#[tactic(auto, unfolding(stan_expr_rules::specs::Parse::type_name))]
pub fn type_name(tokens: &[Token], at: usize) -> Result<(Token, usize), Stop>
    ensures { Gives (λ x. x) result (parse.type_name tokens.now at) }
{
    let Some(token) = token_at(tokens, at) else {
        return Err(Stop::Absent);
    };
    if names_type(token.kind) {
        Ok((token, at + 1))
    } else {
        Err(Stop::Absent)
    }
}

/// A further name, if a `|` comes next.
#[tactic(auto, unfolding(stan_expr_rules::specs::Parse::alternative))]
pub fn alternative(tokens: &[Token], at: usize) -> Result<Option<(Token, usize)>, Stop>
    ensures { Gives (λ x. x) result (parse.alternative tokens.now at) }
{
    match after(tokens, TokenKind::Bar, at) {
        None => Ok(None),
        Some(to) => Ok(Some(type_name(tokens, to)?)),
    }
}

/// The further names of a type, each behind a `|`.
#[tactic(auto, unfolding(stan_expr_rules::specs::Parse::alternatives, stan_expr_rules::specs::Parse::all))]
pub fn alternatives(
    alloc: Global,
    tokens: &[Token],
    at: usize,
) -> Result<(Items<Token>, usize), Stop>
    ensures { Gives (λ x. x) result (parse.alternatives tokens.now at) }
{
    let mut found = Items::new(alloc);
    let mut place = at;
    for _turn in 0..tokens.len() + 1 {
        match alternative(tokens, place)? {
            None => return Ok((found, place)),
            Some((item, to)) => {
                found.push(item)?;
                place = to;
            }
        }
    }
    Err(Stop::Absent)
}

/// A type that begins with a name.
#[tactic(auto, unfolding(stan_expr_rules::specs::Parse::union))]
pub fn union(alloc: Global, tokens: &[Token], place: usize) -> Result<(TypeTree, usize), Stop>
    ensures { Gives (at type_of) result (parse.union tokens.now place) }
{
    let (name, to) = type_name(tokens, place)?;
    let (more, to) = alternatives(alloc, tokens, to)?;
    Ok((TypeTree::Union(name, more), to))
}

/// The type behind this `?`.
#[tactic(auto, unfolding(stan_expr_rules::specs::Parse::nullable))]
pub fn nullable(tokens: &[Token], first: Token, place: usize) -> Result<(TypeTree, usize), Stop>
    ensures { Gives (at type_of) result (parse.nullable tokens.now first place) }
{
    let (name, to) = type_name(tokens, place)?;
    Ok((TypeTree::Nullable(first, name), to))
}

/// A written type.
#[tactic(auto, unfolding(stan_expr_rules::specs::Parse::type_tree, stan_expr_rules::specs::Places::same_kind))]
pub fn type_tree(alloc: Global, tokens: &[Token], place: usize) -> Result<(TypeTree, usize), Stop>
    ensures { Gives (at type_of) result (parse.type_tree tokens.now place) }
{
    match token_at(tokens, place) {
        None => Err(Stop::Absent),
        Some(first) if first.kind == TokenKind::Question => nullable(tokens, first, place + 1),
        Some(_) => union(alloc, tokens, place),
    }
}

/// A written type, which has to stand there.
#[tactic(auto, unfolding(stan_expr_rules::specs::Parse::some_type))]
pub fn some_type(
    alloc: Global,
    tokens: &[Token],
    place: usize,
) -> Result<(Option<TypeTree>, usize), Stop>
    ensures { Gives (at may_type) result (parse.some_type tokens.now place) }
{
    let (declared, to) = type_tree(alloc, tokens, place)?;
    Ok((Some(declared), to))
}

/// Whether a type begins there.
pub fn begins_type(tokens: &[Token], place: usize) -> bool
    ensures { result ≡ parse.begins_type tokens.now (strata.kind_at tokens.now place) }
{
    match kind_at(tokens, place) {
        TokenKind::Question => true,
        kind => names_type(kind),
    }
}

/// A type, if one begins there.
#[tactic(auto, unfolding(stan_expr_rules::specs::Parse::may_type))]
pub fn may_type(
    alloc: Global,
    tokens: &[Token],
    place: usize,
) -> Result<(Option<TypeTree>, usize), Stop>
    ensures { Gives (at may_type) result (parse.may_type tokens.now place) }
{
    if begins_type(tokens, place) {
        some_type(alloc, tokens, place)
    } else {
        Ok((None, place))
    }
}

/// The type behind a `:`, if one stands there.
#[tactic(auto, unfolding(stan_expr_rules::specs::Parse::may_return))]
pub fn may_return(
    alloc: Global,
    tokens: &[Token],
    place: usize,
) -> Result<(Option<TypeTree>, usize), Stop>
    ensures { Gives (at may_type) result (parse.may_return tokens.now place) }
{
    match after(tokens, TokenKind::Colon, place) {
        Some(to) => some_type(alloc, tokens, to),
        None => Ok((None, place)),
    }
}

/// A visibility, if one stands there, and the place behind it.
#[tactic(auto, unfolding(stan_expr_rules::specs::Parse::visibility, stan_model_grammar::specs::Strata::kind_at))]
pub fn visibility_at(tokens: &[Token], place: usize) -> (Option<Visibility>, usize)
    ensures { result ≡ parse.visibility tokens.now place }
{
    let Some(token) = token_at(tokens, place) else {
        return (None, place);
    };
    match visibility_of(token.kind) {
        None => (None, place),
        Some(visibility) => (Some(visibility), place + 1),
    }
}
