//! Statements of expressions and words.

ghost use Rattle.std.specs.Prelude.{◌≡◌, ◌≤◌, Some, slice_get};
ghost use Rattle.stan_model_statements.specs.Rules as rules;
ghost use Rattle.stan_places.specs.Gives.{Gives, at};
ghost use Rattle.stan_stmt_parts.specs.Gives as spec;

use stan_model_grammar::token::{Token, TokenKind};
use stan_places::places::token_at;
use stan_places::stop::Stop;
use stan_stmt_items::words::Levels;
use stan_stmt_lists::blocks::Block;
use stan_stmt_lists::values::{Expressions, Value};
use stan_stmt_parts::depth::{Depth, enter};
use stan_stmt_parts::parser::{Parser, Part, Reader, with_first};
use stan_stmt_parts::words::Ends;
use stan_stmt_trees::{Form, Stmt};

/// A block.
#[tactic(auto, using(crate::proofs::FormLemmas::block_is, crate::proofs::TokenLemmas::no_block), unfolding(stan_stmt_parts::specs::Gives::entered, stan_stmt_parts::specs::Gives::inside, stan_stmt_parts::specs::Parse::first_at, stan_model_statements::specs::Kinds::same_kind))]
pub fn block_statement<R: Reader>(
    parser: &Parser<'_, R>,
    depth: Depth,
    place: usize,
) -> Result<(Stmt, usize), Stop>
    requires room { depth.room ≤ R.room parser.now.reader }
    requires ready { R.ready parser.now.reader }
    ensures { Gives (at spec.statement_piece) result (spec.entered parser.now.tokens.now (R.leaves parser.now.reader) depth rules.block_statement place) }
{
    let depth = enter(depth, 0)?;
    let Some(first) = token_at(parser.tokens, place) else {
        return Err(Stop::Absent);
    };
    let (statements, to) = Block::read(parser, depth, place)?;
    let form = Form::Block(statements);
    Ok((Stmt { first, form }, to))
}

/// An end alone.
#[tactic(auto, using(crate::proofs::FormLemmas::empty_is, crate::proofs::TokenLemmas::no_word), unfolding(stan_stmt_parts::specs::Gives::entered, stan_stmt_parts::specs::Gives::inside, stan_stmt_parts::specs::Parse::first_at, stan_model_statements::specs::Kinds::same_kind))]
pub fn empty_statement<R: Reader>(
    parser: &Parser<'_, R>,
    depth: Depth,
    place: usize,
) -> Result<(Stmt, usize), Stop>
    requires room { depth.room ≤ R.room parser.now.reader }
    requires ready { R.ready parser.now.reader }
    ensures { Gives (at spec.statement_piece) result (spec.entered parser.now.tokens.now (R.leaves parser.now.reader) depth rules.empty_statement place) }
{
    let _depth = enter(depth, 0)?;
    let Some(first) = token_at(parser.tokens, place) else {
        return Err(Stop::Absent);
    };
    let (end, to) = parser.word::<Ends>(place)?;
    let form = Form::Empty { end };
    Ok((Stmt { first, form }, to))
}

/// An expression, up to its end. `first` is the token there.
#[tactic(auto, using(crate::proofs::FormLemmas::expression_is), unfolding(stan_stmt_parts::specs::Gives::entered, stan_stmt_parts::specs::Gives::inside, stan_stmt_parts::specs::Parse::first_at, stan_model_statements::specs::Kinds::same_kind))]
pub fn expression_statement<R: Reader>(
    parser: &Parser<'_, R>,
    depth: Depth,
    place: usize,
    first: Token,
) -> Result<(Stmt, usize), Stop>
    requires room { depth.room ≤ R.room parser.now.reader }
    requires ready { R.ready parser.now.reader }
    requires first { slice_get parser.now.tokens.now place ≡ Some first }
    ensures { Gives (at spec.statement_piece) result (spec.entered parser.now.tokens.now (R.leaves parser.now.reader) depth rules.expression_statement place) }
{
    let depth = enter(depth, 0)?;
    let (value, to) = parser.value(depth, false, place)?;
    let (end, to) = parser.word::<Ends>(to)?;
    let form = Form::Expression { value, end };
    Ok((Stmt { first, form }, to))
}

/// An `echo`.
#[tactic(auto, using(crate::proofs::FormLemmas::echo_is), unfolding(stan_stmt_parts::specs::Gives::entered, stan_stmt_parts::specs::Gives::inside, stan_stmt_parts::specs::Parse::first_at, stan_model_statements::specs::Kinds::same_kind))]
pub fn echo_statement<R: Reader>(
    parser: &Parser<'_, R>,
    depth: Depth,
    place: usize,
) -> Result<(Stmt, usize), Stop>
    requires room { depth.room ≤ R.room parser.now.reader }
    requires ready { R.ready parser.now.reader }
    ensures { Gives (at spec.statement_piece) result (spec.entered parser.now.tokens.now (R.leaves parser.now.reader) depth rules.echo_statement place) }
{
    let depth = enter(depth, 0)?;
    let (first, to) = parser.keyword(TokenKind::Echo, place)?;
    let ((value, more), to) = Expressions::read(parser, depth, to)?;
    let (end, to) = parser.word::<Ends>(to)?;
    let values = with_first(parser.alloc, value, more)?;
    let form = Form::Echo { values, end };
    Ok((Stmt { first, form }, to))
}

/// A `return`.
#[tactic(auto, using(crate::proofs::FormLemmas::return_is), unfolding(stan_stmt_parts::specs::Gives::entered, stan_stmt_parts::specs::Gives::inside, stan_stmt_parts::specs::Parse::first_at, stan_model_statements::specs::Kinds::same_kind))]
pub fn return_statement<R: Reader>(
    parser: &Parser<'_, R>,
    depth: Depth,
    place: usize,
) -> Result<(Stmt, usize), Stop>
    requires room { depth.room ≤ R.room parser.now.reader }
    requires ready { R.ready parser.now.reader }
    ensures { Gives (at spec.statement_piece) result (spec.entered parser.now.tokens.now (R.leaves parser.now.reader) depth rules.return_statement place) }
{
    let depth = enter(depth, 0)?;
    let (first, to) = parser.keyword(TokenKind::Return, place)?;
    let (value, to) = parser.maybe::<Value>(depth, to)?;
    let (end, to) = parser.word::<Ends>(to)?;
    let form = Form::Return { value, end };
    Ok((Stmt { first, form }, to))
}

/// A `break`.
#[tactic(auto, using(crate::proofs::FormLemmas::break_is), unfolding(stan_stmt_parts::specs::Gives::entered, stan_stmt_parts::specs::Gives::inside, stan_stmt_parts::specs::Parse::first_at, stan_model_statements::specs::Kinds::same_kind))]
pub fn break_statement<R: Reader>(
    parser: &Parser<'_, R>,
    depth: Depth,
    place: usize,
) -> Result<(Stmt, usize), Stop>
    requires room { depth.room ≤ R.room parser.now.reader }
    requires ready { R.ready parser.now.reader }
    ensures { Gives (at spec.statement_piece) result (spec.entered parser.now.tokens.now (R.leaves parser.now.reader) depth rules.break_statement place) }
{
    let depth = enter(depth, 0)?;
    let (first, to) = parser.keyword(TokenKind::Break, place)?;
    let (levels, to) = parser.maybe::<Levels>(depth, to)?;
    let (end, to) = parser.word::<Ends>(to)?;
    let form = Form::Break { levels, end };
    Ok((Stmt { first, form }, to))
}

/// A `continue`.
#[tactic(auto, using(crate::proofs::FormLemmas::continue_is), unfolding(stan_stmt_parts::specs::Gives::entered, stan_stmt_parts::specs::Gives::inside, stan_stmt_parts::specs::Parse::first_at, stan_model_statements::specs::Kinds::same_kind))]
pub fn continue_statement<R: Reader>(
    parser: &Parser<'_, R>,
    depth: Depth,
    place: usize,
) -> Result<(Stmt, usize), Stop>
    requires room { depth.room ≤ R.room parser.now.reader }
    requires ready { R.ready parser.now.reader }
    ensures { Gives (at spec.statement_piece) result (spec.entered parser.now.tokens.now (R.leaves parser.now.reader) depth rules.continue_statement place) }
{
    let depth = enter(depth, 0)?;
    let (first, to) = parser.keyword(TokenKind::Continue, place)?;
    let (levels, to) = parser.maybe::<Levels>(depth, to)?;
    let (end, to) = parser.word::<Ends>(to)?;
    let form = Form::Continue { levels, end };
    Ok((Stmt { first, form }, to))
}
