//! What stands in the round brackets of statements.

ghost use Rattle.stan_model_statements.specs.Symbols as sorts;
ghost use Rattle.stan_stmt_lists.specs.Views as views;

use crate::values::{Expressions, all_values};
use sqlite_items::Items;
use stan_model_grammar::token::{Token, TokenKind};
use stan_places::stop::Stop;
use stan_stmt_items::words::{CatchVariable, FurtherClass};
use stan_stmt_parts::depth::{Depth, enter};
use stan_stmt_parts::parser::{Parser, Part, Reader, stands, with_first};
use stan_stmt_parts::words::{Integers, Names};
use stan_stmt_trees::Value;

/// The lists of a `for`, each of which may be empty.
#[derive(Drop)]
pub struct ForLists {
    pub start: Items<Value>,
    pub conditions: Items<Value>,
    pub step: Items<Value>,
}

/// What a `declare` sets.
#[derive(Clone, Copy, Debug)]
pub struct Setting {
    /// The word `strict_types`.
    pub name: Token,
    pub number: Token,
}

/// What a `catch` catches.
#[derive(Drop)]
pub struct Caught {
    /// The names of the classes, at least one.
    pub classes: Items<Token>,
    pub variable: Option<Token>,
}

/// The lists of a `for`, in round brackets.
pub struct ForHead;

impl Part for ForHead {
    type Tree = ForLists;

    ghost sort = { sorts.ForHead };

    ghost view = { λ x. views.for_head_of x.start x.conditions x.step };

    #[tactic(auto, unfolding(stan_stmt_rules::specs::Ahead::pick_at, stan_model_statements::specs::Kinds::same_kind))]
    fn begins(tokens: &[Token], place: usize) -> bool {
        stands(tokens, TokenKind::LeftParenthesis, place)
    }

    #[tactic(auto, using(stan_stmt_parts::proofs::Singles::part_enters, crate::proofs::ListLemmas::may_be), unfolding(stan_stmt_parts::specs::Gives::entered, stan_stmt_parts::specs::Gives::inside, stan_stmt_parts::specs::Parse::first_at, stan_model_statements::specs::Kinds::same_kind))]
    fn read<R: Reader>(
        parser: &Parser<'_, R>,
        depth: Depth,
        place: usize,
    ) -> Result<(ForLists, usize), Stop> {
        let depth = enter(depth, 1)?;
        let to = parser.expect(TokenKind::LeftParenthesis, place)?;
        let (start, to) = parser.maybe::<Expressions>(depth, to)?;
        let to = parser.expect(TokenKind::Semicolon, to)?;
        let (conditions, to) = parser.maybe::<Expressions>(depth, to)?;
        let to = parser.expect(TokenKind::Semicolon, to)?;
        let (step, to) = parser.maybe::<Expressions>(depth, to)?;
        let to = parser.expect(TokenKind::RightParenthesis, to)?;
        let start = all_values(parser.alloc, start)?;
        let conditions = all_values(parser.alloc, conditions)?;
        let step = all_values(parser.alloc, step)?;
        Ok((
            ForLists {
                start,
                conditions,
                step,
            },
            to,
        ))
    }
}

/// `strict_types` and its number, in round brackets.
pub struct Directive;

impl Part for Directive {
    type Tree = Setting;

    ghost sort = { sorts.Directive };

    ghost view = { λ x. views.directive_of x.name x.number };

    #[tactic(auto, unfolding(stan_stmt_rules::specs::Ahead::pick_at, stan_model_statements::specs::Kinds::same_kind))]
    fn begins(tokens: &[Token], place: usize) -> bool {
        stands(tokens, TokenKind::LeftParenthesis, place)
    }

    #[tactic(auto, using(stan_stmt_parts::proofs::Singles::part_enters), unfolding(stan_stmt_parts::specs::Gives::entered, stan_stmt_parts::specs::Gives::inside, stan_stmt_parts::specs::Parse::first_at, stan_model_statements::specs::Kinds::same_kind))]
    fn read<R: Reader>(
        parser: &Parser<'_, R>,
        depth: Depth,
        place: usize,
    ) -> Result<(Setting, usize), Stop> {
        let _depth = enter(depth, 1)?;
        let to = parser.expect(TokenKind::LeftParenthesis, place)?;
        let (name, to) = parser.strict_types(to)?;
        let to = parser.expect(TokenKind::Assign, to)?;
        let (number, to) = parser.word::<Integers>(to)?;
        let to = parser.expect(TokenKind::RightParenthesis, to)?;
        Ok((Setting { name, number }, to))
    }
}

/// The classes and the variable of a `catch`, in round brackets.
pub struct CatchHead;

impl Part for CatchHead {
    type Tree = Caught;

    ghost sort = { sorts.CatchHead };

    ghost view = { λ x. views.catch_head_of x.classes x.variable };

    #[tactic(auto, unfolding(stan_stmt_rules::specs::Ahead::pick_at, stan_model_statements::specs::Kinds::same_kind))]
    fn begins(tokens: &[Token], place: usize) -> bool {
        stands(tokens, TokenKind::LeftParenthesis, place)
    }

    #[tactic(auto, using(stan_stmt_parts::proofs::Singles::part_enters, stan_stmt_items::proofs::Layers::further_are, stan_stmt_parts::proofs::Options::worded), unfolding(stan_stmt_parts::specs::Gives::entered, stan_stmt_parts::specs::Gives::inside, stan_stmt_parts::specs::Parse::first_at, stan_model_statements::specs::Kinds::same_kind))]
    fn read<R: Reader>(
        parser: &Parser<'_, R>,
        depth: Depth,
        place: usize,
    ) -> Result<(Caught, usize), Stop> {
        let depth = enter(depth, 1)?;
        let to = parser.expect(TokenKind::LeftParenthesis, place)?;
        let (first, to) = parser.word::<Names>(to)?;
        let (more, to) = parser.all::<FurtherClass>(depth, to)?;
        let (variable, to) = parser.maybe::<CatchVariable>(depth, to)?;
        let to = parser.expect(TokenKind::RightParenthesis, to)?;
        let classes = with_first(parser.alloc, first, more)?;
        Ok((Caught { classes, variable }, to))
    }
}
