//! Values in lists and in brackets.

ghost use Rattle.std.specs.Prelude.{◌≡◌, ◌+◌, ◌∷◌, IfOk, List};
ghost use Rattle.stan_model_grammar.specs.declared.token.TokenKind.TheVariants as kinds;
ghost use Rattle.stan_model_grammar.specs.Strata as strata;
ghost use Rattle.stan_model_statements.specs.Kinds.{same_kind};
ghost use Rattle.stan_model_statements.specs.Rules as rules;
ghost use Rattle.stan_model_statements.specs.Symbols as sorts;
ghost use Rattle.stan_stmt_items.specs.Views as items;
ghost use Rattle.stan_stmt_lists.specs.Views as views;

use sqlite_items::Items;
use stan_model_grammar::token::{Token, TokenKind};
use stan_places::places::{kind_at, next_kind};
use stan_places::stop::Stop;
use stan_stmt_ahead::kinds::begins_expression;
use stan_stmt_items::constants::FurtherExpression;
use stan_stmt_parts::depth::{Depth, enter};
use stan_stmt_parts::parser::{Parser, Part, Reader, stands, with_first};
use stan_stmt_trees::Value as ValueTree;
use std::alloc::{AllocError, Global};

/// A value alone.
pub struct Value;

impl Part for Value {
    type Tree = ValueTree;

    ghost sort = { sorts.Value };

    ghost view = { items.of_value rules.value_part };

    #[tactic(auto, unfolding(stan_stmt_rules::specs::Ahead::pick_at, stan_model_statements::specs::Kinds::same_kind))]
    fn begins(tokens: &[Token], place: usize) -> bool {
        begins_expression(kind_at(tokens, place))
    }

    #[tactic(auto, using(stan_stmt_parts::proofs::Singles::part_if), unfolding(stan_stmt_parts::specs::Gives::entered, stan_stmt_parts::specs::Gives::inside, stan_stmt_parts::specs::Parse::first_at, stan_model_statements::specs::Kinds::same_kind))]
    fn read<R: Reader>(
        parser: &Parser<'_, R>,
        depth: Depth,
        place: usize,
    ) -> Result<(ValueTree, usize), Stop> {
        if !begins_expression(kind_at(parser.tokens, place)) {
            return Err(Stop::Absent);
        }
        let depth = enter(depth, 0)?;
        let (value, to) = parser.value(depth, false, place)?;
        Ok((value, to))
    }
}

/// At least one value: the first, and those behind it.
pub struct Expressions;

impl Part for Expressions {
    type Tree = (ValueTree, Items<ValueTree>);

    ghost sort = { sorts.Expressions };

    ghost view = { views.expressions_of };

    #[tactic(auto, unfolding(stan_stmt_rules::specs::Ahead::pick_at, stan_model_statements::specs::Kinds::same_kind))]
    fn begins(tokens: &[Token], place: usize) -> bool {
        begins_expression(kind_at(tokens, place))
    }

    #[tactic(auto, using(stan_stmt_parts::proofs::Singles::part_if, crate::proofs::ListLemmas::further_are), unfolding(stan_stmt_parts::specs::Gives::entered, stan_stmt_parts::specs::Gives::inside, stan_stmt_parts::specs::Parse::first_at, stan_model_statements::specs::Kinds::same_kind))]
    fn read<R: Reader>(
        parser: &Parser<'_, R>,
        depth: Depth,
        place: usize,
    ) -> Result<((ValueTree, Items<ValueTree>), usize), Stop> {
        if !begins_expression(kind_at(parser.tokens, place)) {
            return Err(Stop::Absent);
        }
        let depth = enter(depth, 0)?;
        let (first, to) = parser.value(depth, false, place)?;
        let (more, to) = parser.all::<FurtherExpression>(depth, to)?;
        Ok(((first, more), to))
    }
}

/// All of the values, if there are any.
pub fn all_values(
    alloc: Global,
    found: Option<(ValueTree, Items<ValueTree>)>,
) -> Result<Items<ValueTree>, AllocError>
    ensures { IfOk result (λ vs. vs ≡ views.all_values found) }
{
    match found {
        None => Ok(Items::new(alloc)),
        Some((first, more)) => with_first(alloc, first, more),
    }
}

/// A value in round brackets.
pub struct Condition;

impl Part for Condition {
    type Tree = ValueTree;

    ghost sort = { sorts.Condition };

    ghost view = { views.in_brackets };

    #[tactic(auto, unfolding(stan_stmt_rules::specs::Ahead::pick_at, stan_model_statements::specs::Kinds::same_kind))]
    fn begins(tokens: &[Token], place: usize) -> bool {
        stands(tokens, TokenKind::LeftParenthesis, place)
    }

    #[tactic(auto, using(stan_stmt_parts::proofs::Singles::part_enters), unfolding(stan_stmt_parts::specs::Gives::entered, stan_stmt_parts::specs::Gives::inside, stan_stmt_parts::specs::Parse::first_at, stan_model_statements::specs::Kinds::same_kind))]
    fn read<R: Reader>(
        parser: &Parser<'_, R>,
        depth: Depth,
        place: usize,
    ) -> Result<(ValueTree, usize), Stop> {
        let depth = enter(depth, 1)?;
        let to = parser.expect(TokenKind::LeftParenthesis, place)?;
        let (value, to) = parser.value(depth, false, to)?;
        let to = parser.expect(TokenKind::RightParenthesis, to)?;
        Ok((value, to))
    }
}

/// A further value of a list in round brackets, behind whose last a `,` may stand.
pub struct FurtherArgument;

impl Part for FurtherArgument {
    type Tree = ValueTree;

    ghost sort = { sorts.FurtherArgument };

    ghost view = { items.value_behind rules.further_argument };

    #[tactic(auto, unfolding(stan_stmt_rules::specs::Ahead::pick_at, stan_model_statements::specs::Kinds::same_kind))]
    fn begins(tokens: &[Token], place: usize) -> bool {
        stands(tokens, TokenKind::Comma, place) && begins_expression(next_kind(tokens, place))
    }

    #[tactic(auto, using(crate::proofs::PickLemmas::argument_by), unfolding(stan_stmt_parts::specs::Gives::entered, stan_stmt_parts::specs::Gives::inside, stan_stmt_parts::specs::Parse::first_at, stan_model_statements::specs::Kinds::same_kind))]
    fn read<R: Reader>(
        parser: &Parser<'_, R>,
        depth: Depth,
        place: usize,
    ) -> Result<(ValueTree, usize), Stop> {
        if !stands(parser.tokens, TokenKind::Comma, place) {
            return Err(Stop::Absent);
        }
        if !begins_expression(next_kind(parser.tokens, place)) {
            return Err(Stop::Absent);
        }
        let depth = enter(depth, 0)?;
        let to = parser.expect(TokenKind::Comma, place)?;
        let (value, to) = parser.value(depth, false, to)?;
        Ok((value, to))
    }
}

// Whether a `)` stands behind this place.
#[tactic(auto, unfolding(stan_model_statements::specs::Kinds::same_kind))]
fn closes_next(tokens: &[Token], place: usize) -> bool
    ensures { result ≡ same_kind (strata.kind_at tokens.now (place + 1)) kinds.RightParenthesis }
{
    next_kind(tokens, place) == TokenKind::RightParenthesis
}

/// The `)` of a list, and whether a `,` stands before it.
pub struct Closing;

impl Part for Closing {
    type Tree = bool;

    ghost sort = { sorts.Closing };

    ghost view = { views.closing_of };

    #[tactic(auto, unfolding(stan_stmt_rules::specs::Ahead::pick_at, stan_model_statements::specs::Kinds::same_kind))]
    fn begins(tokens: &[Token], place: usize) -> bool {
        match kind_at(tokens, place) {
            TokenKind::RightParenthesis => true,
            TokenKind::Comma => next_kind(tokens, place) == TokenKind::RightParenthesis,
            _ => false,
        }
    }

    #[tactic(auto, using(crate::proofs::PickLemmas::closing_by), unfolding(stan_stmt_parts::specs::Gives::entered, stan_stmt_parts::specs::Gives::inside, stan_stmt_parts::specs::Parse::first_at, stan_model_statements::specs::Kinds::same_kind))]
    fn read<R: Reader>(
        parser: &Parser<'_, R>,
        depth: Depth,
        place: usize,
    ) -> Result<(bool, usize), Stop> {
        if stands(parser.tokens, TokenKind::RightParenthesis, place) {
            let _depth = enter(depth, 0)?;
            let to = parser.expect(TokenKind::RightParenthesis, place)?;
            return Ok((false, to));
        }
        if !stands(parser.tokens, TokenKind::Comma, place) {
            return Err(Stop::Absent);
        }
        if !closes_next(parser.tokens, place) {
            return Err(Stop::Absent);
        }
        let _depth = enter(depth, 0)?;
        let to = parser.expect(TokenKind::Comma, place)?;
        let to = parser.expect(TokenKind::RightParenthesis, to)?;
        Ok((true, to))
    }
}

/// What is unset, and whether a `,` stands behind the last.
pub struct UnsetList;

impl Part for UnsetList {
    type Tree = (Items<ValueTree>, bool);

    ghost sort = { sorts.UnsetList };

    ghost view = { views.unset_list_of };

    #[tactic(auto, unfolding(stan_stmt_rules::specs::Ahead::pick_at, stan_model_statements::specs::Kinds::same_kind))]
    fn begins(tokens: &[Token], place: usize) -> bool {
        stands(tokens, TokenKind::LeftParenthesis, place)
    }

    #[tactic(auto, using(stan_stmt_parts::proofs::Singles::part_enters, crate::proofs::ListLemmas::further_are, crate::proofs::ListLemmas::ends), unfolding(stan_stmt_parts::specs::Gives::entered, stan_stmt_parts::specs::Gives::inside, stan_stmt_parts::specs::Parse::first_at, stan_model_statements::specs::Kinds::same_kind))]
    fn read<R: Reader>(
        parser: &Parser<'_, R>,
        depth: Depth,
        place: usize,
    ) -> Result<((Items<ValueTree>, bool), usize), Stop> {
        let depth = enter(depth, 1)?;
        let to = parser.expect(TokenKind::LeftParenthesis, place)?;
        let (first, to) = parser.value(depth, false, to)?;
        let (more, to) = parser.all::<FurtherArgument>(depth, to)?;
        let (comma, to) = Closing::read(parser, depth, to)?;
        let values = with_first(parser.alloc, first, more)?;
        Ok(((values, comma), to))
    }
}
