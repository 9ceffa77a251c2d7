//! The types of properties.

ghost use Rattle.std.specs.Prelude.{◌≡◌, ◌≤◌, option_map};
ghost use Rattle.stan_model_statements.specs.Rules as rules;
ghost use Rattle.stan_model_statements.specs.Symbols as sorts;
ghost use Rattle.stan_places.specs.Gives.{Gives, at};
ghost use Rattle.stan_stmt_parts.specs.Gives as spec;
ghost use Rattle.stan_stmt_rules.specs.Ahead as ahead;
ghost use Rattle.stan_stmt_types.specs.Views as views;

use stan_model_grammar::token::{Token, TokenKind};
use stan_places::places::{kind_at, next_kind};
use stan_places::stop::Stop;
use stan_stmt_items::words::FurtherType;
use stan_stmt_parts::depth::{Depth, enter};
use stan_stmt_parts::parser::{Parser, Part, Reader, with_first};
use stan_stmt_parts::words::{PropertyTypeNames, Questions, Statics, TypeNames};
use stan_syntax::TypeTree;

/// The productions of types of properties.
#[derive(Clone, Copy, Debug)]
pub enum PropertyTypeRule {
    Nullable,
    Static,
    Union,
}

/// The production of the type of a property, by the kinds of its next two tokens. A lone `static` is a modifier.
#[tactic(auto, unfolding(stan_model_statements::specs::Kinds::same_kind))]
pub fn pick_property_type(first: TokenKind, second: TokenKind) -> Option<PropertyTypeRule>
    ensures { option_map views.property_type_rule result ≡ ahead.static_by first second rules.static_property_type ahead.property_type_choices }
{
    match first {
        TokenKind::Static => {
            if second == TokenKind::Bar {
                Some(PropertyTypeRule::Static)
            } else {
                None
            }
        }
        TokenKind::Question => Some(PropertyTypeRule::Nullable),
        TokenKind::Identifier => Some(PropertyTypeRule::Union),
        TokenKind::QualifiedName => Some(PropertyTypeRule::Union),
        TokenKind::FullyQualifiedName => Some(PropertyTypeRule::Union),
        TokenKind::RelativeName => Some(PropertyTypeRule::Union),
        TokenKind::Array => Some(PropertyTypeRule::Union),
        TokenKind::Callable => Some(PropertyTypeRule::Union),
        _ => None,
    }
}

/// The type of a property.
pub struct PropertyType;

impl Part for PropertyType {
    type Tree = TypeTree;

    ghost sort = { sorts.PropertyType };

    ghost view = { views.property_type_piece };

    #[tactic(auto, unfolding(stan_stmt_rules::specs::Ahead::pick_at))]
    fn begins(tokens: &[Token], place: usize) -> bool {
        pick_property_type(kind_at(tokens, place), next_kind(tokens, place)).is_some()
    }

    #[tactic(auto, using(stan_stmt_parts::proofs::Turns::part_picked), unfolding(stan_stmt_rules::specs::Ahead::pick_at))]
    fn read<R: Reader>(
        parser: &Parser<'_, R>,
        depth: Depth,
        place: usize,
    ) -> Result<(TypeTree, usize), Stop> {
        let first = kind_at(parser.tokens, place);
        match pick_property_type(first, next_kind(parser.tokens, place)) {
            Some(PropertyTypeRule::Nullable) => nullable_property_type(parser, depth, place),
            Some(PropertyTypeRule::Static) => static_property_type(parser, depth, place),
            Some(PropertyTypeRule::Union) => union_property_type(parser, depth, place),
            None => Err(Stop::Absent),
        }
    }
}

#[tactic(auto, unfolding(stan_stmt_parts::specs::Gives::entered, stan_stmt_parts::specs::Gives::inside, stan_stmt_parts::specs::Parse::first_at, crate::specs::Views::property_type_piece))]
fn nullable_property_type<R: Reader>(
    parser: &Parser<'_, R>,
    depth: Depth,
    place: usize,
) -> Result<(TypeTree, usize), Stop>
    ensures { Gives (at views.property_type_piece) result (spec.entered parser.now.tokens.now (R.leaves parser.now.reader) depth rules.nullable_property_type place) }
{
    let _depth = enter(depth, 0)?;
    let (question, to) = parser.word::<Questions>(place)?;
    let (name, to) = parser.word::<TypeNames>(to)?;
    Ok((TypeTree::Nullable(question, name), to))
}

/// A type that begins with `static`.
#[tactic(auto, using(crate::proofs::TypeLemmas::static_type), unfolding(stan_stmt_parts::specs::Gives::entered, stan_stmt_parts::specs::Gives::inside, stan_stmt_parts::specs::Parse::first_at))]
fn static_property_type<R: Reader>(
    parser: &Parser<'_, R>,
    depth: Depth,
    place: usize,
) -> Result<(TypeTree, usize), Stop>
    requires room { depth.room ≤ R.room parser.now.reader }
    requires ready { R.ready parser.now.reader }
    ensures { Gives (at views.property_type_piece) result (spec.entered parser.now.tokens.now (R.leaves parser.now.reader) depth rules.static_property_type place) }
{
    let depth = enter(depth, 0)?;
    let (first, to) = parser.word::<Statics>(place)?;
    let to = parser.expect(TokenKind::Bar, to)?;
    let (second, to) = parser.word::<TypeNames>(to)?;
    let (more, to) = parser.all::<FurtherType>(depth, to)?;
    let more = with_first(parser.alloc, second, more)?;
    Ok((TypeTree::Union(first, more), to))
}

#[tactic(auto, using(crate::proofs::TypeLemmas::union_type), unfolding(stan_stmt_parts::specs::Gives::entered, stan_stmt_parts::specs::Gives::inside, stan_stmt_parts::specs::Parse::first_at))]
fn union_property_type<R: Reader>(
    parser: &Parser<'_, R>,
    depth: Depth,
    place: usize,
) -> Result<(TypeTree, usize), Stop>
    requires room { depth.room ≤ R.room parser.now.reader }
    requires ready { R.ready parser.now.reader }
    ensures { Gives (at views.property_type_piece) result (spec.entered parser.now.tokens.now (R.leaves parser.now.reader) depth rules.union_property_type place) }
{
    let depth = enter(depth, 0)?;
    let (first, to) = parser.word::<PropertyTypeNames>(place)?;
    let (more, to) = parser.all::<FurtherType>(depth, to)?;
    Ok((TypeTree::Union(first, more), to))
}
