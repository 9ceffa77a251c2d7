//! What a `foreach` goes through, and what it puts each element into.

ghost use Rattle.std.specs.Prelude.{◌≤◌};
ghost use Rattle.stan_model_statements.specs.Rules as rules;
ghost use Rattle.stan_model_statements.specs.Symbols as sorts;
ghost use Rattle.stan_places.specs.Gives.{Gives, at};
ghost use Rattle.stan_stmt_lists.specs.Views as views;
ghost use Rattle.stan_stmt_parts.specs.Gives as spec;

use stan_model_grammar::token::{Token, TokenKind};
use stan_places::places::kind_at;
use stan_places::stop::Stop;
use stan_stmt_ahead::kinds::begins_expression;
use stan_stmt_items::words::ByReference;
use stan_stmt_parts::depth::{Depth, enter};
use stan_stmt_parts::parser::{Parser, Part, Reader, stands};
use stan_stmt_trees::Value;

/// What the elements of a `foreach` are put into.
#[derive(Drop)]
pub struct ForEachTarget {
    pub key: Option<Value>,
    pub by_reference: bool,
    /// It may be a pattern.
    pub element: Value,
}

/// What a `foreach` goes through, with its target.
#[derive(Drop)]
pub struct Through {
    pub subject: Value,
    pub key: Option<Value>,
    pub by_reference: bool,
    pub element: Value,
}

/// An element by reference, without a key.
#[tactic(auto, using(crate::proofs::ListLemmas::target_stands), unfolding(stan_stmt_parts::specs::Gives::entered, stan_stmt_parts::specs::Gives::inside, stan_stmt_parts::specs::Parse::first_at, stan_model_statements::specs::Kinds::same_kind))]
fn reference_target<R: Reader>(
    parser: &Parser<'_, R>,
    depth: Depth,
    place: usize,
) -> Result<(ForEachTarget, usize), Stop>
    requires room { depth.room ≤ R.room parser.now.reader }
    requires ready { R.ready parser.now.reader }
    ensures { Gives (at (λ x. views.target_of x.key x.by_reference x.element)) result (spec.entered parser.now.tokens.now (R.leaves parser.now.reader) depth rules.reference_target place) }
{
    let depth = enter(depth, 0)?;
    let to = parser.expect(TokenKind::Ampersand, place)?;
    let (element, to) = parser.value(depth, true, to)?;
    let to = parser.expect(TokenKind::RightParenthesis, to)?;
    let target = ForEachTarget {
        key: None,
        by_reference: true,
        element,
    };
    Ok((target, to))
}

/// An element without a key.
#[tactic(auto, using(crate::proofs::ListLemmas::target_stands), unfolding(stan_stmt_parts::specs::Gives::entered, stan_stmt_parts::specs::Gives::inside, stan_stmt_parts::specs::Parse::first_at, stan_model_statements::specs::Kinds::same_kind))]
fn value_target<R: Reader>(
    parser: &Parser<'_, R>,
    depth: Depth,
    place: usize,
) -> Result<(ForEachTarget, usize), Stop>
    requires room { depth.room ≤ R.room parser.now.reader }
    requires ready { R.ready parser.now.reader }
    ensures { Gives (at (λ x. views.target_of x.key x.by_reference x.element)) result (spec.entered parser.now.tokens.now (R.leaves parser.now.reader) depth rules.value_target place) }
{
    let depth = enter(depth, 0)?;
    let (element, to) = parser.value(depth, true, place)?;
    let to = parser.expect(TokenKind::RightParenthesis, to)?;
    let target = ForEachTarget {
        key: None,
        by_reference: false,
        element,
    };
    Ok((target, to))
}

/// An element with its key.
#[tactic(auto, using(stan_stmt_parts::proofs::Options::flagged), unfolding(stan_stmt_parts::specs::Gives::entered, stan_stmt_parts::specs::Gives::inside, stan_stmt_parts::specs::Parse::first_at, stan_model_statements::specs::Kinds::same_kind))]
fn keyed_target<R: Reader>(
    parser: &Parser<'_, R>,
    depth: Depth,
    place: usize,
) -> Result<(ForEachTarget, usize), Stop>
    requires room { depth.room ≤ R.room parser.now.reader }
    requires ready { R.ready parser.now.reader }
    ensures { Gives (at (λ x. views.target_of x.key x.by_reference x.element)) result (spec.entered parser.now.tokens.now (R.leaves parser.now.reader) depth rules.keyed_target place) }
{
    let depth = enter(depth, 0)?;
    let (key, to) = parser.value(depth, false, place)?;
    let to = parser.expect(TokenKind::DoubleArrow, to)?;
    let (reference, to) = parser.maybe::<ByReference>(depth, to)?;
    let (element, to) = parser.value(depth, true, to)?;
    let to = parser.expect(TokenKind::RightParenthesis, to)?;
    let target = ForEachTarget {
        key: Some(key),
        by_reference: reference.is_some(),
        element,
    };
    Ok((target, to))
}

/// What each element is put into, and the `)` behind it. Which form it has shows behind the expression, which is therefore read twice.
#[tactic(auto, using(stan_stmt_parts::proofs::Turns::part_picked), unfolding(stan_stmt_parts::specs::Gives::entered, stan_stmt_parts::specs::Gives::inside, stan_stmt_parts::specs::Parse::first_at, stan_model_statements::specs::Kinds::same_kind, stan_stmt_rules::specs::Ahead::pick_at))]
pub fn for_each_target<R: Reader>(
    parser: &Parser<'_, R>,
    depth: Depth,
    place: usize,
) -> Result<(ForEachTarget, usize), Stop>
    requires room { depth.room ≤ R.room parser.now.reader }
    requires ready { R.ready parser.now.reader }
    ensures { Gives (at (λ x. views.target_of x.key x.by_reference x.element)) result (spec.part parser.now.tokens.now (R.leaves parser.now.reader) depth sorts.ForEachTarget place) }
{
    let first = kind_at(parser.tokens, place);
    if first == TokenKind::Ampersand {
        return reference_target(parser, depth, place);
    }
    if !begins_expression(first) {
        return Err(Stop::Absent);
    }
    let behind = parser.behind(depth, place)?;
    if behind == TokenKind::DoubleArrow {
        return keyed_target(parser, depth, place);
    }
    if behind == TokenKind::RightParenthesis {
        return value_target(parser, depth, place);
    }
    Err(Stop::Absent)
}

/// What a `foreach` goes through, and its target, in round brackets.
pub struct ForEachHead;

impl Part for ForEachHead {
    type Tree = Through;

    ghost sort = { sorts.ForEachHead };

    ghost view = { λ x. views.for_each_head_of x.subject x.key x.by_reference x.element };

    #[tactic(auto, unfolding(stan_stmt_rules::specs::Ahead::pick_at, stan_model_statements::specs::Kinds::same_kind))]
    fn begins(tokens: &[Token], place: usize) -> bool {
        stands(tokens, TokenKind::LeftParenthesis, place)
    }

    #[tactic(auto, using(stan_stmt_parts::proofs::Singles::part_enters, crate::proofs::ListLemmas::target_stands), unfolding(stan_stmt_parts::specs::Gives::entered, stan_stmt_parts::specs::Gives::inside, stan_stmt_parts::specs::Parse::first_at, stan_model_statements::specs::Kinds::same_kind))]
    fn read<R: Reader>(
        parser: &Parser<'_, R>,
        depth: Depth,
        place: usize,
    ) -> Result<(Through, usize), Stop> {
        let depth = enter(depth, 1)?;
        let to = parser.expect(TokenKind::LeftParenthesis, place)?;
        let (subject, to) = parser.value(depth, false, to)?;
        let to = parser.expect(TokenKind::As, to)?;
        let (found, to) = for_each_target(parser, depth, to)?;
        let ForEachTarget {
            key,
            by_reference,
            element,
        } = found;
        let through = Through {
            subject,
            key,
            by_reference,
            element,
        };
        Ok((through, to))
    }
}
