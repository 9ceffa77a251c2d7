//! Parameters in round brackets.

ghost use Rattle.std.specs.Prelude.{◌≡◌, ◌≤◌, ◌+◌};
ghost use Rattle.stan_model_grammar.specs.declared.token.TokenKind.TheVariants as kinds;
ghost use Rattle.stan_model_grammar.specs.Strata as strata;
ghost use Rattle.stan_model_statements.specs.Kinds.{same_kind};
ghost use Rattle.stan_model_statements.specs.Rules as rules;
ghost use Rattle.stan_model_statements.specs.Symbols as sorts;
ghost use Rattle.stan_places.specs.Gives.{Gives, at};
ghost use Rattle.stan_stmt_members.specs.Views as views;
ghost use Rattle.stan_stmt_parts.specs.Gives as spec;

use sqlite_items::Items;
use stan_model_grammar::token::{Token, TokenKind};
use stan_places::places::next_kind;
use stan_places::stop::Stop;
use stan_stmt_lists::values::Closing;
use stan_stmt_parts::depth::{Depth, enter};
use stan_stmt_parts::parser::{Parser, Part, Reader, stands, with_first};
use stan_stmt_trees::Parameter as ParameterTree;
use stan_stmt_types::parameters::{FurtherParameter, Parameter};

// Brackets without parameters.
#[tactic(auto, unfolding(stan_stmt_parts::specs::Gives::entered, stan_stmt_parts::specs::Gives::inside, stan_stmt_parts::specs::Parse::first_at))]
fn no_parameters<R: Reader>(
    parser: &Parser<'_, R>,
    depth: Depth,
    place: usize,
) -> Result<((Items<ParameterTree>, bool), usize), Stop>
    ensures { Gives (at views.parameter_list_piece) result (spec.entered parser.now.tokens.now (R.leaves parser.now.reader) depth rules.no_parameters place) }
{
    let _depth = enter(depth, 1)?;
    let to = parser.expect(TokenKind::LeftParenthesis, place)?;
    let to = parser.expect(TokenKind::RightParenthesis, to)?;
    Ok(((Items::new(parser.alloc), false), to))
}

// At least one parameter.
#[tactic(auto, using(crate::proofs::ParameterLemmas::parameters_are), unfolding(stan_stmt_parts::specs::Gives::entered, stan_stmt_parts::specs::Gives::inside, stan_stmt_parts::specs::Parse::first_at))]
fn parameters<R: Reader>(
    parser: &Parser<'_, R>,
    depth: Depth,
    place: usize,
) -> Result<((Items<ParameterTree>, bool), usize), Stop>
    requires room { depth.room ≤ R.room parser.now.reader }
    requires ready { R.ready parser.now.reader }
    ensures { Gives (at views.parameter_list_piece) result (spec.entered parser.now.tokens.now (R.leaves parser.now.reader) depth rules.parameters place) }
{
    let depth = enter(depth, 1)?;
    let to = parser.expect(TokenKind::LeftParenthesis, place)?;
    let (first, to) = Parameter::read(parser, depth, to)?;
    let (more, to) = parser.all::<FurtherParameter>(depth, to)?;
    let (comma, to) = Closing::read(parser, depth, to)?;
    let parameters = with_first(parser.alloc, first, more)?;
    Ok(((parameters, comma), to))
}

// Whether a `)` stands behind this place.
#[tactic(auto, unfolding(stan_model_statements::specs::Kinds::same_kind))]
fn closes_next(tokens: &[Token], place: usize) -> bool
    ensures { result ≡ same_kind (strata.kind_at tokens.now (place + 1)) kinds.RightParenthesis }
{
    next_kind(tokens, place) == TokenKind::RightParenthesis
}

/// Parameters in round brackets, and whether a `,` stands behind the last.
pub struct ParameterList;

impl Part for ParameterList {
    type Tree = (Items<ParameterTree>, bool);

    ghost sort = { sorts.ParameterList };

    ghost view = { views.parameter_list_piece };

    #[tactic(auto, unfolding(stan_stmt_rules::specs::Ahead::pick_at))]
    fn begins(tokens: &[Token], place: usize) -> bool {
        stands(tokens, TokenKind::LeftParenthesis, place)
    }

    #[tactic(auto, using(stan_stmt_parts::proofs::Turns::part_picked), unfolding(stan_stmt_rules::specs::Ahead::pick_at))]
    fn read<R: Reader>(
        parser: &Parser<'_, R>,
        depth: Depth,
        place: usize,
    ) -> Result<((Items<ParameterTree>, bool), usize), Stop> {
        if !stands(parser.tokens, TokenKind::LeftParenthesis, place) {
            return Err(Stop::Absent);
        }
        if closes_next(parser.tokens, place) {
            return no_parameters(parser, depth, place);
        }
        parameters(parser, depth, place)
    }
}
