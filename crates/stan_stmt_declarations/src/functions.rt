//! Functions.

ghost use Rattle.std.specs.Prelude.{◌≤◌};
ghost use Rattle.stan_model_statements.specs.Rules as rules;
ghost use Rattle.stan_places.specs.Gives.{Gives, at};
ghost use Rattle.stan_stmt_parts.specs.Gives as spec;

use stan_model_grammar::token::TokenKind;
use stan_places::stop::Stop;
use stan_stmt_items::words::ByReference;
use stan_stmt_lists::blocks::Block;
use stan_stmt_members::parameter_lists::ParameterList;
use stan_stmt_parts::depth::{Depth, enter};
use stan_stmt_parts::parser::{Parser, Part, Reader};
use stan_stmt_parts::words::Identifiers;
use stan_stmt_trees::{Form, Stmt};
use stan_stmt_types::types::ReturnType;

/// A function.
#[tactic(auto, using(crate::proofs::FormLemmas::function_is), unfolding(stan_stmt_parts::specs::Gives::entered, stan_stmt_parts::specs::Gives::inside, stan_stmt_parts::specs::Parse::first_at, stan_model_statements::specs::Kinds::same_kind))]
pub fn function_statement<R: Reader>(
    parser: &Parser<'_, R>,
    depth: Depth,
    place: usize,
) -> Result<(Stmt, usize), Stop>
    requires room { depth.room ≤ R.room parser.now.reader }
    requires ready { R.ready parser.now.reader }
    ensures { Gives (at spec.statement_piece) result (spec.entered parser.now.tokens.now (R.leaves parser.now.reader) depth rules.function_statement place) }
{
    let depth = enter(depth, 0)?;
    let (first, to) = parser.keyword(TokenKind::Function, place)?;
    let (reference, to) = parser.maybe::<ByReference>(depth, to)?;
    let (name, to) = parser.word::<Identifiers>(to)?;
    let ((parameters, comma), to) = ParameterList::read(parser, depth, to)?;
    let (result, to) = parser.maybe::<ReturnType>(depth, to)?;
    let (body, to) = Block::read(parser, depth, to)?;
    let form = Form::Function {
        by_reference: reference.is_some(),
        name,
        parameters,
        comma,
        result,
        body,
    };
    Ok((Stmt { first, form }, to))
}
