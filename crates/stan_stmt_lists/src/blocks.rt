//! Statements, one behind the other in braces.

ghost use Rattle.stan_model_statements.specs.Symbols as sorts;
ghost use Rattle.stan_stmt_lists.specs.Views as views;
ghost use Rattle.stan_stmt_parts.specs.Gives as spec;

use sqlite_items::Items;
use stan_model_grammar::token::{Token, TokenKind};
use stan_places::places::{kind_at, next_kind};
use stan_places::stop::Stop;
use stan_stmt_ahead::rules::pick_statement;
use stan_stmt_parts::depth::{Depth, enter};
use stan_stmt_parts::parser::{Parser, Part, Reader, stands, third_kind};
use stan_stmt_trees::Stmt;

/// A statement.
pub struct Statement;

impl Part for Statement {
    type Tree = Stmt;

    ghost sort = { sorts.Statement };

    ghost view = { spec.statement_piece };

    #[tactic(auto, unfolding(stan_stmt_rules::specs::Ahead::pick_at))]
    fn begins(tokens: &[Token], place: usize) -> bool {
        let first = kind_at(tokens, place);
        let second = next_kind(tokens, place);
        pick_statement(first, second, third_kind(tokens, place)).is_some()
    }

    fn read<R: Reader>(
        parser: &Parser<'_, R>,
        depth: Depth,
        place: usize,
    ) -> Result<(Stmt, usize), Stop> {
        parser.statement(depth, place)
    }
}

/// Statements in braces.
pub struct Block;

impl Part for Block {
    type Tree = Items<Stmt>;

    ghost sort = { sorts.Block };

    ghost view = { views.block_of };

    #[tactic(auto, unfolding(stan_stmt_rules::specs::Ahead::pick_at, stan_model_statements::specs::Kinds::same_kind))]
    fn begins(tokens: &[Token], place: usize) -> bool {
        stands(tokens, TokenKind::LeftBrace, place)
    }

    #[tactic(auto, using(stan_stmt_parts::proofs::Singles::part_enters, crate::proofs::ListLemmas::statements_are), unfolding(stan_stmt_parts::specs::Gives::entered, stan_stmt_parts::specs::Gives::inside, stan_stmt_parts::specs::Parse::first_at, stan_model_statements::specs::Kinds::same_kind))]
    fn read<R: Reader>(
        parser: &Parser<'_, R>,
        depth: Depth,
        place: usize,
    ) -> Result<(Items<Stmt>, usize), Stop> {
        let depth = enter(depth, 1)?;
        let to = parser.expect(TokenKind::LeftBrace, place)?;
        let (statements, to) = parser.all::<Statement>(depth, to)?;
        let to = parser.expect(TokenKind::RightBrace, to)?;
        Ok((statements, to))
    }
}
