//! Parameters of functions and methods.

ghost use Rattle.std.specs.Prelude.{◌≡◌, ◌≤◌, Some, slice_get};
ghost use Rattle.stan_model_statements.specs.Kinds.{has};
ghost use Rattle.stan_model_statements.specs.Rules as rules;
ghost use Rattle.stan_model_statements.specs.Symbols as sorts;
ghost use Rattle.stan_places.specs.Gives.{Gives, at};
ghost use Rattle.stan_stmt_parts.specs.Gives as spec;
ghost use Rattle.stan_stmt_rules.specs.Ahead as ahead;
ghost use Rattle.stan_stmt_types.specs.Views as views;

use crate::types::WrittenType;
use stan_model_grammar::token::{Token, TokenKind};
use stan_places::places::{kind_at, next_kind, token_at};
use stan_places::stop::Stop;
use stan_stmt_ahead::kinds::is_type_name;
use stan_stmt_items::constants::Default;
use stan_stmt_items::words::{ByReference, Variadic, Visibility};
use stan_stmt_parts::depth::{Depth, enter};
use stan_stmt_parts::parser::{Parser, Part, Reader, stands};
use stan_stmt_parts::words::Variables;
use stan_stmt_trees::Parameter as ParameterTree;

/// Whether it can begin a parameter.
#[tactic(auto, unfolding(stan_model_statements::specs::Kinds::same_kind))]
pub fn begins_parameter(kind: TokenKind) -> bool
    ensures { result ≡ has (ahead.begins sorts.Parameter) kind }
{
    match kind {
        TokenKind::Public => true,
        TokenKind::Protected => true,
        TokenKind::Private => true,
        TokenKind::Question => true,
        TokenKind::Ampersand => true,
        TokenKind::Ellipsis => true,
        TokenKind::Variable => true,
        kind => is_type_name(kind),
    }
}

/// A parameter.
pub struct Parameter;

impl Part for Parameter {
    type Tree = ParameterTree;

    ghost sort = { sorts.Parameter };

    ghost view = { views.parameter_piece };

    #[tactic(auto, unfolding(stan_stmt_rules::specs::Ahead::pick_at))]
    fn begins(tokens: &[Token], place: usize) -> bool {
        begins_parameter(kind_at(tokens, place))
    }

    #[tactic(auto, using(stan_stmt_parts::proofs::Singles::part_if), unfolding(stan_model_grammar::specs::Strata::kind_at, stan_model_statements::specs::Kinds::same_kind))]
    fn read<R: Reader>(
        parser: &Parser<'_, R>,
        depth: Depth,
        place: usize,
    ) -> Result<(ParameterTree, usize), Stop> {
        let Some(first) = token_at(parser.tokens, place) else {
            return Err(Stop::Absent);
        };
        if !begins_parameter(first.kind) {
            return Err(Stop::Absent);
        }
        read_parameter(parser, depth, first, place)
    }
}

/// The parameter that begins with this token.
#[tactic(auto, using(crate::proofs::ParameterLemmas::parameter_parts), unfolding(stan_stmt_parts::specs::Gives::entered, stan_stmt_parts::specs::Gives::inside, stan_stmt_parts::specs::Parse::first_at))]
fn read_parameter<R: Reader>(
    parser: &Parser<'_, R>,
    depth: Depth,
    first: Token,
    place: usize,
) -> Result<(ParameterTree, usize), Stop>
    requires first { slice_get parser.now.tokens.now place ≡ Some first }
    requires room { depth.room ≤ R.room parser.now.reader }
    requires ready { R.ready parser.now.reader }
    ensures { Gives (at views.parameter_piece) result (spec.entered parser.now.tokens.now (R.leaves parser.now.reader) depth rules.parameter place) }
{
    let depth = enter(depth, 0)?;
    let (visibility, to) = parser.maybe::<Visibility>(depth, place)?;
    let (declared, to) = parser.maybe::<WrittenType>(depth, to)?;
    let (reference, to) = parser.maybe::<ByReference>(depth, to)?;
    let (dots, to) = parser.maybe::<Variadic>(depth, to)?;
    let (name, to) = parser.word::<Variables>(to)?;
    let (default, to) = parser.maybe::<Default>(depth, to)?;
    let by_reference = reference.is_some();
    let is_variadic = dots.is_some();
    let parameter = ParameterTree {
        first,
        visibility,
        declared,
        by_reference,
        is_variadic,
        name,
        default,
    };
    Ok((parameter, to))
}

/// A further parameter.
pub struct FurtherParameter;

impl Part for FurtherParameter {
    type Tree = ParameterTree;

    ghost sort = { sorts.FurtherParameter };

    ghost view = { views.further_parameter_piece };

    #[tactic(auto, unfolding(stan_stmt_rules::specs::Ahead::pick_at))]
    fn begins(tokens: &[Token], place: usize) -> bool {
        stands(tokens, TokenKind::Comma, place) && begins_parameter(next_kind(tokens, place))
    }

    #[tactic(auto, using(stan_stmt_parts::proofs::Turns::part_picked), unfolding(stan_stmt_parts::specs::Gives::entered, stan_stmt_parts::specs::Gives::inside, stan_stmt_parts::specs::Parse::first_at, stan_stmt_rules::specs::Ahead::pick_at))]
    fn read<R: Reader>(
        parser: &Parser<'_, R>,
        depth: Depth,
        place: usize,
    ) -> Result<(ParameterTree, usize), Stop> {
        if !stands(parser.tokens, TokenKind::Comma, place) {
            return Err(Stop::Absent);
        }
        if !begins_parameter(next_kind(parser.tokens, place)) {
            return Err(Stop::Absent);
        }
        let depth = enter(depth, 0)?;
        let to = parser.expect(TokenKind::Comma, place)?;
        let (parameter, to) = Parameter::read(parser, depth, to)?;
        Ok((parameter, to))
    }
}
