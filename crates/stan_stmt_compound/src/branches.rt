//! `if`, `elseif` and `else`.

ghost use Rattle.std.specs.Prelude.{◌≡◌, ◌≤◌, IfOk};
ghost use Rattle.stan_model_statements.specs.Rules as rules;
ghost use Rattle.stan_model_statements.specs.Symbols as sorts;
ghost use Rattle.stan_places.specs.Gives.{Gives, at};
ghost use Rattle.stan_stmt_compound.specs.Views as views;
ghost use Rattle.stan_stmt_parts.specs.Gives as spec;

use sqlite_items::Boxed;
use stan_model_grammar::token::{Token, TokenKind};
use stan_places::stop::Stop;
use stan_stmt_lists::values::Condition;
use stan_stmt_parts::depth::{Depth, enter};
use stan_stmt_parts::parser::{Parser, Part, Reader, stands};
use stan_stmt_trees::{ElseIf, Form, Stmt};
use std::alloc::{AllocError, Global};

/// An `elseif`.
pub struct ElseIfPart;

impl Part for ElseIfPart {
    type Tree = ElseIf;

    ghost sort = { sorts.ElseIfPart };

    ghost view = { views.else_if_piece };

    #[tactic(auto, unfolding(stan_stmt_rules::specs::Ahead::pick_at, stan_model_statements::specs::Kinds::same_kind))]
    fn begins(tokens: &[Token], place: usize) -> bool {
        stands(tokens, TokenKind::ElseIf, place)
    }

    #[tactic(auto, using(stan_stmt_parts::proofs::Singles::part_enters, crate::proofs::PartLemmas::else_if_is), unfolding(stan_stmt_parts::specs::Gives::entered, stan_stmt_parts::specs::Gives::inside, stan_stmt_parts::specs::Parse::first_at, stan_model_statements::specs::Kinds::same_kind))]
    fn read<R: Reader>(
        parser: &Parser<'_, R>,
        depth: Depth,
        place: usize,
    ) -> Result<(ElseIf, usize), Stop> {
        let depth = enter(depth, 0)?;
        let (first, to) = parser.keyword(TokenKind::ElseIf, place)?;
        let (condition, to) = Condition::read(parser, depth, to)?;
        let (then, to) = parser.statement(depth, to)?;
        let else_if = ElseIf {
            first,
            condition,
            then,
        };
        Ok((else_if, to))
    }
}

/// An `else`.
pub struct ElsePart;

impl Part for ElsePart {
    type Tree = Stmt;

    ghost sort = { sorts.ElsePart };

    ghost view = { views.else_piece };

    #[tactic(auto, unfolding(stan_stmt_rules::specs::Ahead::pick_at, stan_model_statements::specs::Kinds::same_kind))]
    fn begins(tokens: &[Token], place: usize) -> bool {
        stands(tokens, TokenKind::Else, place)
    }

    #[tactic(auto, using(stan_stmt_parts::proofs::Singles::part_enters), unfolding(stan_stmt_parts::specs::Gives::entered, stan_stmt_parts::specs::Gives::inside, stan_stmt_parts::specs::Parse::first_at, stan_model_statements::specs::Kinds::same_kind))]
    fn read<R: Reader>(
        parser: &Parser<'_, R>,
        depth: Depth,
        place: usize,
    ) -> Result<(Stmt, usize), Stop> {
        let depth = enter(depth, 0)?;
        let to = parser.expect(TokenKind::Else, place)?;
        let (statement, to) = parser.statement(depth, to)?;
        Ok((statement, to))
    }
}

// A statement that may stand, in a box.
fn boxed(alloc: Global, found: Option<Stmt>) -> Result<Option<Boxed<Stmt>>, AllocError>
    ensures { IfOk result (λ o. o ≡ found) }
{
    match found {
        None => Ok(None),
        Some(statement) => Ok(Some(Boxed::new(alloc, statement)?)),
    }
}

/// An `if`, with all `elseif`s and the `else` that stand behind it.
#[tactic(auto, using(crate::proofs::FormLemmas::if_is), unfolding(stan_stmt_parts::specs::Gives::entered, stan_stmt_parts::specs::Gives::inside, stan_stmt_parts::specs::Parse::first_at, stan_model_statements::specs::Kinds::same_kind))]
pub fn if_statement<R: Reader>(
    parser: &Parser<'_, R>,
    depth: Depth,
    place: usize,
) -> Result<(Stmt, usize), Stop>
    requires room { depth.room ≤ R.room parser.now.reader }
    requires ready { R.ready parser.now.reader }
    ensures { Gives (at spec.statement_piece) result (spec.entered parser.now.tokens.now (R.leaves parser.now.reader) depth rules.if_statement place) }
{
    let depth = enter(depth, 1)?;
    let (first, to) = parser.keyword(TokenKind::If, place)?;
    let (condition, to) = Condition::read(parser, depth, to)?;
    let (then, to) = parser.statement(depth, to)?;
    let (else_ifs, to) = parser.all::<ElseIfPart>(depth, to)?;
    let (otherwise, to) = parser.maybe::<ElsePart>(depth, to)?;
    let form = Form::If {
        condition,
        then: Boxed::new(parser.alloc, then)?,
        else_ifs,
        otherwise: boxed(parser.alloc, otherwise)?,
    };
    Ok((Stmt { first, form }, to))
}
