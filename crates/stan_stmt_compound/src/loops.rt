//! `while`, `do`, `for` and `foreach`.

ghost use Rattle.std.specs.Prelude.{◌≤◌};
ghost use Rattle.stan_model_statements.specs.Rules as rules;
ghost use Rattle.stan_places.specs.Gives.{Gives, at};
ghost use Rattle.stan_stmt_parts.specs.Gives as spec;

use sqlite_items::Boxed;
use stan_model_grammar::token::TokenKind;
use stan_places::stop::Stop;
use stan_stmt_lists::heads::{ForHead, ForLists};
use stan_stmt_lists::targets::{ForEachHead, Through};
use stan_stmt_lists::values::Condition;
use stan_stmt_parts::depth::{Depth, enter};
use stan_stmt_parts::parser::{Parser, Part, Reader};
use stan_stmt_parts::words::Ends;
use stan_stmt_trees::{Form, Stmt};

/// A `while`.
#[tactic(auto, using(crate::proofs::FormLemmas::while_is), unfolding(stan_stmt_parts::specs::Gives::entered, stan_stmt_parts::specs::Gives::inside, stan_stmt_parts::specs::Parse::first_at, stan_model_statements::specs::Kinds::same_kind))]
pub fn while_statement<R: Reader>(
    parser: &Parser<'_, R>,
    depth: Depth,
    place: usize,
) -> Result<(Stmt, usize), Stop>
    requires room { depth.room ≤ R.room parser.now.reader }
    requires ready { R.ready parser.now.reader }
    ensures { Gives (at spec.statement_piece) result (spec.entered parser.now.tokens.now (R.leaves parser.now.reader) depth rules.while_statement place) }
{
    let depth = enter(depth, 1)?;
    let (first, to) = parser.keyword(TokenKind::While, place)?;
    let (condition, to) = Condition::read(parser, depth, to)?;
    let (body, to) = parser.statement(depth, to)?;
    let body = Boxed::new(parser.alloc, body)?;
    let form = Form::While { condition, body };
    Ok((Stmt { first, form }, to))
}

/// A `do`, up to the end behind its `while`.
#[tactic(auto, using(crate::proofs::FormLemmas::do_is), unfolding(stan_stmt_parts::specs::Gives::entered, stan_stmt_parts::specs::Gives::inside, stan_stmt_parts::specs::Parse::first_at, stan_model_statements::specs::Kinds::same_kind))]
pub fn do_statement<R: Reader>(
    parser: &Parser<'_, R>,
    depth: Depth,
    place: usize,
) -> Result<(Stmt, usize), Stop>
    requires room { depth.room ≤ R.room parser.now.reader }
    requires ready { R.ready parser.now.reader }
    ensures { Gives (at spec.statement_piece) result (spec.entered parser.now.tokens.now (R.leaves parser.now.reader) depth rules.do_statement place) }
{
    let depth = enter(depth, 1)?;
    let (first, to) = parser.keyword(TokenKind::Do, place)?;
    let (body, to) = parser.statement(depth, to)?;
    let to = parser.expect(TokenKind::While, to)?;
    let (condition, to) = Condition::read(parser, depth, to)?;
    let (end, to) = parser.word::<Ends>(to)?;
    let form = Form::Do {
        body: Boxed::new(parser.alloc, body)?,
        condition,
        end,
    };
    Ok((Stmt { first, form }, to))
}

/// A `for`.
#[tactic(auto, using(crate::proofs::FormLemmas::for_is), unfolding(stan_stmt_parts::specs::Gives::entered, stan_stmt_parts::specs::Gives::inside, stan_stmt_parts::specs::Parse::first_at, stan_model_statements::specs::Kinds::same_kind))]
pub fn for_statement<R: Reader>(
    parser: &Parser<'_, R>,
    depth: Depth,
    place: usize,
) -> Result<(Stmt, usize), Stop>
    requires room { depth.room ≤ R.room parser.now.reader }
    requires ready { R.ready parser.now.reader }
    ensures { Gives (at spec.statement_piece) result (spec.entered parser.now.tokens.now (R.leaves parser.now.reader) depth rules.for_statement place) }
{
    let depth = enter(depth, 1)?;
    let (first, to) = parser.keyword(TokenKind::For, place)?;
    let (lists, to) = ForHead::read(parser, depth, to)?;
    let (body, to) = parser.statement(depth, to)?;
    let ForLists {
        start,
        conditions,
        step,
    } = lists;
    let form = Form::For {
        start,
        conditions,
        step,
        body: Boxed::new(parser.alloc, body)?,
    };
    Ok((Stmt { first, form }, to))
}

/// A `foreach`.
#[tactic(auto, using(crate::proofs::FormLemmas::for_each_is), unfolding(stan_stmt_parts::specs::Gives::entered, stan_stmt_parts::specs::Gives::inside, stan_stmt_parts::specs::Parse::first_at, stan_model_statements::specs::Kinds::same_kind))]
pub fn for_each_statement<R: Reader>(
    parser: &Parser<'_, R>,
    depth: Depth,
    place: usize,
) -> Result<(Stmt, usize), Stop>
    requires room { depth.room ≤ R.room parser.now.reader }
    requires ready { R.ready parser.now.reader }
    ensures { Gives (at spec.statement_piece) result (spec.entered parser.now.tokens.now (R.leaves parser.now.reader) depth rules.for_each_statement place) }
{
    let depth = enter(depth, 1)?;
    let (first, to) = parser.keyword(TokenKind::ForEach, place)?;
    let (through, to) = ForEachHead::read(parser, depth, to)?;
    let (body, to) = parser.statement(depth, to)?;
    let Through {
        subject,
        key,
        by_reference,
        element,
    } = through;
    let form = Form::ForEach {
        subject,
        key,
        by_reference,
        element,
        body: Boxed::new(parser.alloc, body)?,
    };
    Ok((Stmt { first, form }, to))
}
