//! Declarations and statements in which no others at the top stand.

ghost use Rattle.std.specs.Prelude.{◌≤◌};
ghost use Rattle.stan_model_statements.specs.Rules as rules;
ghost use Rattle.stan_places.specs.Gives.{Gives, at};
ghost use Rattle.stan_stmt_parts.specs.Gives as spec;
ghost use Rattle.stan_stmt_tops.specs.Views as views;

use stan_model_grammar::token::TokenKind;
use stan_places::stop::Stop;
use stan_stmt_items::words::UseKind;
use stan_stmt_parts::depth::{Depth, enter};
use stan_stmt_parts::parser::{Parser, Part, Reader};
use stan_stmt_parts::words::{Ends, Names};
use stan_stmt_trees::Top;
use stan_stmt_uses::lists::{Brought, UseRest};

/// A `namespace` of all that follows.
#[tactic(auto, using(crate::proofs::TopLemmas::namespace_is), unfolding(stan_stmt_parts::specs::Gives::entered, stan_stmt_parts::specs::Gives::inside, stan_stmt_parts::specs::Parse::first_at, stan_model_statements::specs::Kinds::same_kind))]
pub fn namespace_statement<R: Reader>(
    parser: &Parser<'_, R>,
    depth: Depth,
    place: usize,
) -> Result<(Top, usize), Stop>
    requires room { depth.room ≤ R.room parser.now.reader }
    requires ready { R.ready parser.now.reader }
    ensures { Gives (at views.top_piece) result (spec.entered parser.now.tokens.now (R.leaves parser.now.reader) depth rules.namespace_statement place) }
{
    let _depth = enter(depth, 0)?;
    let (first, to) = parser.keyword(TokenKind::Namespace, place)?;
    let (name, to) = parser.word::<Names>(to)?;
    let (end, to) = parser.word::<Ends>(to)?;
    Ok((Top::Namespace { first, name, end }, to))
}

/// A `use`.
#[tactic(auto, using(crate::proofs::TopLemmas::use_is, crate::proofs::TopLemmas::use_group_is), unfolding(stan_stmt_parts::specs::Gives::entered, stan_stmt_parts::specs::Gives::inside, stan_stmt_parts::specs::Parse::first_at, stan_model_statements::specs::Kinds::same_kind))]
pub fn use_declaration<R: Reader>(
    parser: &Parser<'_, R>,
    depth: Depth,
    place: usize,
) -> Result<(Top, usize), Stop>
    requires room { depth.room ≤ R.room parser.now.reader }
    requires ready { R.ready parser.now.reader }
    ensures { Gives (at views.top_piece) result (spec.entered parser.now.tokens.now (R.leaves parser.now.reader) depth rules.use_declaration place) }
{
    let depth = enter(depth, 0)?;
    let (first, to) = parser.keyword(TokenKind::Use, place)?;
    let (kind, to) = parser.maybe::<UseKind>(depth, to)?;
    let (brought, to) = UseRest::read(parser, depth, to)?;
    let top = match brought {
        Brought::List { items, end } => Top::Use {
            first,
            kind,
            items,
            end,
        },
        Brought::Group {
            name,
            items,
            comma,
            end,
        } => Top::UseGroup {
            first,
            kind,
            name,
            items,
            comma,
            end,
        },
    };
    Ok((top, to))
}

/// A statement.
#[tactic(auto, unfolding(stan_stmt_parts::specs::Gives::entered, stan_stmt_parts::specs::Gives::inside, stan_stmt_parts::specs::Parse::first_at, stan_model_statements::specs::Kinds::same_kind))]
pub fn top_statement<R: Reader>(
    parser: &Parser<'_, R>,
    depth: Depth,
    place: usize,
) -> Result<(Top, usize), Stop>
    requires room { depth.room ≤ R.room parser.now.reader }
    requires ready { R.ready parser.now.reader }
    ensures { Gives (at views.top_piece) result (spec.entered parser.now.tokens.now (R.leaves parser.now.reader) depth rules.top_statement place) }
{
    let depth = enter(depth, 0)?;
    let (statement, to) = parser.statement(depth, place)?;
    Ok((Top::Plain(statement), to))
}
