//! `switch`, `case` and `default`.

ghost use Rattle.std.specs.Prelude.{◌≤◌};
ghost use Rattle.stan_model_statements.specs.Rules as rules;
ghost use Rattle.stan_model_statements.specs.Symbols as sorts;
ghost use Rattle.stan_places.specs.Gives.{Gives, at};
ghost use Rattle.stan_stmt_compound.specs.Views as views;
ghost use Rattle.stan_stmt_parts.specs.Gives as spec;

use sqlite_items::Items;
use stan_model_grammar::token::{Token, TokenKind};
use stan_places::stop::Stop;
use stan_stmt_lists::blocks::Statement;
use stan_stmt_lists::values::Condition;
use stan_stmt_parts::depth::{Depth, enter};
use stan_stmt_parts::parser::{Parser, Part, Reader, stands};
use stan_stmt_parts::words::CaseEnds;
use stan_stmt_trees::{Case as CaseTree, Form, Stmt};

// A `case`.
#[tactic(auto, using(crate::proofs::PartLemmas::case_is), unfolding(stan_stmt_parts::specs::Gives::entered, stan_stmt_parts::specs::Gives::inside, stan_stmt_parts::specs::Parse::first_at, stan_model_statements::specs::Kinds::same_kind))]
fn case_part<R: Reader>(
    parser: &Parser<'_, R>,
    depth: Depth,
    place: usize,
) -> Result<(CaseTree, usize), Stop>
    requires room { depth.room ≤ R.room parser.now.reader }
    requires ready { R.ready parser.now.reader }
    ensures { Gives (at views.case_piece) result (spec.entered parser.now.tokens.now (R.leaves parser.now.reader) depth rules.case_part place) }
{
    let depth = enter(depth, 0)?;
    let (first, to) = parser.keyword(TokenKind::Case, place)?;
    let (value, to) = parser.value(depth, false, to)?;
    let (mark, to) = parser.word::<CaseEnds>(to)?;
    let (statements, to) = parser.all::<Statement>(depth, to)?;
    let case = CaseTree {
        first,
        value: Some(value),
        mark,
        statements,
    };
    Ok((case, to))
}

// A `default`.
#[tactic(auto, using(crate::proofs::PartLemmas::default_is), unfolding(stan_stmt_parts::specs::Gives::entered, stan_stmt_parts::specs::Gives::inside, stan_stmt_parts::specs::Parse::first_at, stan_model_statements::specs::Kinds::same_kind))]
fn default_part<R: Reader>(
    parser: &Parser<'_, R>,
    depth: Depth,
    place: usize,
) -> Result<(CaseTree, usize), Stop>
    requires room { depth.room ≤ R.room parser.now.reader }
    requires ready { R.ready parser.now.reader }
    ensures { Gives (at views.case_piece) result (spec.entered parser.now.tokens.now (R.leaves parser.now.reader) depth rules.default_part place) }
{
    let depth = enter(depth, 0)?;
    let (first, to) = parser.keyword(TokenKind::Default, place)?;
    let (mark, to) = parser.word::<CaseEnds>(to)?;
    let (statements, to) = parser.all::<Statement>(depth, to)?;
    let case = CaseTree {
        first,
        value: None,
        mark,
        statements,
    };
    Ok((case, to))
}

/// A `case` or a `default`.
pub struct Case;

impl Part for Case {
    type Tree = CaseTree;

    ghost sort = { sorts.Case };

    ghost view = { views.case_piece };

    #[tactic(auto, unfolding(stan_stmt_rules::specs::Ahead::pick_at, stan_model_statements::specs::Kinds::same_kind))]
    fn begins(tokens: &[Token], place: usize) -> bool {
        stands(tokens, TokenKind::Case, place) || stands(tokens, TokenKind::Default, place)
    }

    #[tactic(auto, using(stan_stmt_parts::proofs::Turns::part_picked), unfolding(stan_model_statements::specs::Kinds::same_kind, stan_stmt_rules::specs::Ahead::pick_at))]
    fn read<R: Reader>(
        parser: &Parser<'_, R>,
        depth: Depth,
        place: usize,
    ) -> Result<(CaseTree, usize), Stop> {
        if stands(parser.tokens, TokenKind::Case, place) {
            return case_part(parser, depth, place);
        }
        if stands(parser.tokens, TokenKind::Default, place) {
            return default_part(parser, depth, place);
        }
        Err(Stop::Absent)
    }
}

/// The `case`s of a `switch`, in braces.
pub struct Cases;

impl Part for Cases {
    type Tree = Items<CaseTree>;

    ghost sort = { sorts.Cases };

    ghost view = { views.cases_of };

    #[tactic(auto, unfolding(stan_stmt_rules::specs::Ahead::pick_at, stan_model_statements::specs::Kinds::same_kind))]
    fn begins(tokens: &[Token], place: usize) -> bool {
        stands(tokens, TokenKind::LeftBrace, place)
    }

    #[tactic(auto, using(stan_stmt_parts::proofs::Singles::part_enters, crate::proofs::PartLemmas::cases_are), unfolding(stan_stmt_parts::specs::Gives::entered, stan_stmt_parts::specs::Gives::inside, stan_stmt_parts::specs::Parse::first_at, stan_model_statements::specs::Kinds::same_kind))]
    fn read<R: Reader>(
        parser: &Parser<'_, R>,
        depth: Depth,
        place: usize,
    ) -> Result<(Items<CaseTree>, usize), Stop> {
        let depth = enter(depth, 1)?;
        let to = parser.expect(TokenKind::LeftBrace, place)?;
        let (cases, to) = parser.all::<Case>(depth, to)?;
        let to = parser.expect(TokenKind::RightBrace, to)?;
        Ok((cases, to))
    }
}

/// A `switch`.
#[tactic(auto, using(crate::proofs::FormLemmas::switch_is), unfolding(stan_stmt_parts::specs::Gives::entered, stan_stmt_parts::specs::Gives::inside, stan_stmt_parts::specs::Parse::first_at, stan_model_statements::specs::Kinds::same_kind))]
pub fn switch_statement<R: Reader>(
    parser: &Parser<'_, R>,
    depth: Depth,
    place: usize,
) -> Result<(Stmt, usize), Stop>
    requires room { depth.room ≤ R.room parser.now.reader }
    requires ready { R.ready parser.now.reader }
    ensures { Gives (at spec.statement_piece) result (spec.entered parser.now.tokens.now (R.leaves parser.now.reader) depth rules.switch_statement place) }
{
    let depth = enter(depth, 1)?;
    let (first, to) = parser.keyword(TokenKind::Switch, place)?;
    let (subject, to) = Condition::read(parser, depth, to)?;
    let (cases, to) = Cases::read(parser, depth, to)?;
    let form = Form::Switch { subject, cases };
    Ok((Stmt { first, form }, to))
}
