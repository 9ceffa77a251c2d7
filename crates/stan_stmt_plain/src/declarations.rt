//! Statements that unset, declare or set.

ghost use Rattle.std.specs.Prelude.{◌≤◌};
ghost use Rattle.stan_model_statements.specs.Rules as rules;
ghost use Rattle.stan_places.specs.Gives.{Gives, at};
ghost use Rattle.stan_stmt_parts.specs.Gives as spec;

use stan_model_grammar::token::TokenKind;
use stan_places::stop::Stop;
use stan_stmt_items::constants::{Constant, Declared, FurtherConstant, FurtherDeclared};
use stan_stmt_items::words::FurtherGlobal;
use stan_stmt_lists::heads::{Directive, Setting};
use stan_stmt_lists::values::UnsetList;
use stan_stmt_parts::depth::{Depth, enter};
use stan_stmt_parts::parser::{Parser, Part, Reader, with_first};
use stan_stmt_parts::words::{Ends, Variables};
use stan_stmt_trees::{Form, Stmt};

/// An `unset`.
#[tactic(auto, using(crate::proofs::FormLemmas::unset_is), unfolding(stan_stmt_parts::specs::Gives::entered, stan_stmt_parts::specs::Gives::inside, stan_stmt_parts::specs::Parse::first_at, stan_model_statements::specs::Kinds::same_kind))]
pub fn unset_statement<R: Reader>(
    parser: &Parser<'_, R>,
    depth: Depth,
    place: usize,
) -> Result<(Stmt, usize), Stop>
    requires room { depth.room ≤ R.room parser.now.reader }
    requires ready { R.ready parser.now.reader }
    ensures { Gives (at spec.statement_piece) result (spec.entered parser.now.tokens.now (R.leaves parser.now.reader) depth rules.unset_statement place) }
{
    let depth = enter(depth, 0)?;
    let (first, to) = parser.keyword(TokenKind::Unset, place)?;
    let ((values, comma), to) = UnsetList::read(parser, depth, to)?;
    let (end, to) = parser.word::<Ends>(to)?;
    let form = Form::Unset { values, comma, end };
    Ok((Stmt { first, form }, to))
}

/// A `global`.
#[tactic(auto, using(crate::proofs::FormLemmas::global_is), unfolding(stan_stmt_parts::specs::Gives::entered, stan_stmt_parts::specs::Gives::inside, stan_stmt_parts::specs::Parse::first_at, stan_model_statements::specs::Kinds::same_kind))]
pub fn global_statement<R: Reader>(
    parser: &Parser<'_, R>,
    depth: Depth,
    place: usize,
) -> Result<(Stmt, usize), Stop>
    requires room { depth.room ≤ R.room parser.now.reader }
    requires ready { R.ready parser.now.reader }
    ensures { Gives (at spec.statement_piece) result (spec.entered parser.now.tokens.now (R.leaves parser.now.reader) depth rules.global_statement place) }
{
    let depth = enter(depth, 0)?;
    let (first, to) = parser.keyword(TokenKind::Global, place)?;
    let (variable, to) = parser.word::<Variables>(to)?;
    let (more, to) = parser.all::<FurtherGlobal>(depth, to)?;
    let (end, to) = parser.word::<Ends>(to)?;
    let variables = with_first(parser.alloc, variable, more)?;
    let form = Form::Global { variables, end };
    Ok((Stmt { first, form }, to))
}

/// A `static` of variables.
#[tactic(auto, using(crate::proofs::FormLemmas::static_is), unfolding(stan_stmt_parts::specs::Gives::entered, stan_stmt_parts::specs::Gives::inside, stan_stmt_parts::specs::Parse::first_at, stan_model_statements::specs::Kinds::same_kind))]
pub fn static_statement<R: Reader>(
    parser: &Parser<'_, R>,
    depth: Depth,
    place: usize,
) -> Result<(Stmt, usize), Stop>
    requires room { depth.room ≤ R.room parser.now.reader }
    requires ready { R.ready parser.now.reader }
    ensures { Gives (at spec.statement_piece) result (spec.entered parser.now.tokens.now (R.leaves parser.now.reader) depth rules.static_statement place) }
{
    let depth = enter(depth, 0)?;
    let (first, to) = parser.keyword(TokenKind::Static, place)?;
    let (variable, to) = Declared::read(parser, depth, to)?;
    let (more, to) = parser.all::<FurtherDeclared>(depth, to)?;
    let (end, to) = parser.word::<Ends>(to)?;
    let variables = with_first(parser.alloc, variable, more)?;
    let form = Form::Static { variables, end };
    Ok((Stmt { first, form }, to))
}

/// A `const`.
#[tactic(auto, using(crate::proofs::FormLemmas::const_is), unfolding(stan_stmt_parts::specs::Gives::entered, stan_stmt_parts::specs::Gives::inside, stan_stmt_parts::specs::Parse::first_at, stan_model_statements::specs::Kinds::same_kind))]
pub fn const_statement<R: Reader>(
    parser: &Parser<'_, R>,
    depth: Depth,
    place: usize,
) -> Result<(Stmt, usize), Stop>
    requires room { depth.room ≤ R.room parser.now.reader }
    requires ready { R.ready parser.now.reader }
    ensures { Gives (at spec.statement_piece) result (spec.entered parser.now.tokens.now (R.leaves parser.now.reader) depth rules.const_statement place) }
{
    let depth = enter(depth, 0)?;
    let (first, to) = parser.keyword(TokenKind::Const, place)?;
    let (constant, to) = Constant::read(parser, depth, to)?;
    let (more, to) = parser.all::<FurtherConstant>(depth, to)?;
    let (end, to) = parser.word::<Ends>(to)?;
    let constants = with_first(parser.alloc, constant, more)?;
    let form = Form::Const { constants, end };
    Ok((Stmt { first, form }, to))
}

/// A `declare` of `strict_types`.
#[tactic(auto, using(crate::proofs::FormLemmas::declare_is), unfolding(stan_stmt_parts::specs::Gives::entered, stan_stmt_parts::specs::Gives::inside, stan_stmt_parts::specs::Parse::first_at, stan_model_statements::specs::Kinds::same_kind))]
pub fn declare_statement<R: Reader>(
    parser: &Parser<'_, R>,
    depth: Depth,
    place: usize,
) -> Result<(Stmt, usize), Stop>
    requires room { depth.room ≤ R.room parser.now.reader }
    requires ready { R.ready parser.now.reader }
    ensures { Gives (at spec.statement_piece) result (spec.entered parser.now.tokens.now (R.leaves parser.now.reader) depth rules.declare_statement place) }
{
    let depth = enter(depth, 0)?;
    let (first, to) = parser.keyword(TokenKind::Declare, place)?;
    let (setting, to) = Directive::read(parser, depth, to)?;
    let (end, to) = parser.word::<Ends>(to)?;
    let Setting { name, number } = setting;
    let form = Form::Declare { name, number, end };
    Ok((Stmt { first, form }, to))
}
