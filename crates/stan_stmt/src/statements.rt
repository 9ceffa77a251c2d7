//! A statement, by the production that its next three tokens ask for.

ghost use Rattle.std.specs.Prelude.{◌≡◌, ◌≤◌, Some, slice_get};
ghost use Rattle.stan_model_statements.specs.Symbols as sorts;
ghost use Rattle.stan_places.specs.Gives.{Gives, at};
ghost use Rattle.stan_stmt_ahead.specs.Rules.{statement_rule};
ghost use Rattle.stan_stmt_parts.specs.Gives as spec;

use stan_model_grammar::token::Token;
use stan_places::places::{next_kind, token_at};
use stan_places::stop::Stop;
use stan_stmt_ahead::rules::{StatementRule, pick_statement};
use stan_stmt_compound::branches::if_statement;
use stan_stmt_compound::handlers::try_statement;
use stan_stmt_compound::loops::{do_statement, for_each_statement, for_statement, while_statement};
use stan_stmt_compound::switches::switch_statement;
use stan_stmt_declarations::classes::{class_statement, interface_statement, trait_statement};
use stan_stmt_declarations::functions::function_statement;
use stan_stmt_parts::depth::Depth;
use stan_stmt_parts::parser::{Parser, Reader, third_kind};
use stan_stmt_plain::declarations::{
    const_statement, declare_statement, global_statement, static_statement, unset_statement,
};
use stan_stmt_plain::simple::{
    block_statement, break_statement, continue_statement, echo_statement, empty_statement,
    expression_statement, return_statement,
};
use stan_stmt_trees::Stmt;

/// The statement of this production. `first` is the token there.
fn statement_by<R: Reader>(
    parser: &Parser<'_, R>,
    depth: Depth,
    rule: StatementRule,
    first: Token,
    place: usize,
) -> Result<(Stmt, usize), Stop>
    requires room { depth.room ≤ R.room parser.now.reader }
    requires ready { R.ready parser.now.reader }
    requires first { slice_get parser.now.tokens.now place ≡ Some first }
    ensures { Gives (at spec.statement_piece) result (spec.entered parser.now.tokens.now (R.leaves parser.now.reader) depth (statement_rule rule) place) }
{
    match rule {
        StatementRule::Block => block_statement(parser, depth, place),
        StatementRule::Empty => empty_statement(parser, depth, place),
        StatementRule::Echo => echo_statement(parser, depth, place),
        StatementRule::Return => return_statement(parser, depth, place),
        StatementRule::If => if_statement(parser, depth, place),
        StatementRule::While => while_statement(parser, depth, place),
        StatementRule::Do => do_statement(parser, depth, place),
        StatementRule::For => for_statement(parser, depth, place),
        StatementRule::ForEach => for_each_statement(parser, depth, place),
        StatementRule::Switch => switch_statement(parser, depth, place),
        StatementRule::Break => break_statement(parser, depth, place),
        StatementRule::Continue => continue_statement(parser, depth, place),
        StatementRule::Try => try_statement(parser, depth, place),
        StatementRule::Unset => unset_statement(parser, depth, place),
        StatementRule::Global => global_statement(parser, depth, place),
        StatementRule::Static => static_statement(parser, depth, place),
        StatementRule::Const => const_statement(parser, depth, place),
        StatementRule::Declare => declare_statement(parser, depth, place),
        StatementRule::Function => function_statement(parser, depth, place),
        StatementRule::Interface => interface_statement(parser, depth, place),
        StatementRule::Trait => trait_statement(parser, depth, place),
        StatementRule::Class => class_statement(parser, depth, place),
        StatementRule::Expression => expression_statement(parser, depth, place, first),
    }
}

/// The statement there.
pub fn statement_there<R: Reader>(
    parser: &Parser<'_, R>,
    depth: Depth,
    place: usize,
) -> Result<(Stmt, usize), Stop>
    requires room { depth.room ≤ R.room parser.now.reader }
    requires ready { R.ready parser.now.reader }
    ensures { Gives (at spec.statement_piece) result (spec.part parser.now.tokens.now (R.leaves parser.now.reader) depth sorts.Statement place) }
{
    let Some(first) = token_at(parser.tokens, place) else {
        return Err(Stop::Absent);
    };
    let second = next_kind(parser.tokens, place);
    let third = third_kind(parser.tokens, place);
    let Some(rule) = pick_statement(first.kind, second, third) else {
        return Err(Stop::Absent);
    };
    statement_by(parser, depth, rule, first, place)
}
