//! `try`, `catch` and `finally`.

ghost use Rattle.std.specs.Prelude.{◌≤◌};
ghost use Rattle.stan_model_statements.specs.Rules as rules;
ghost use Rattle.stan_model_statements.specs.Symbols as sorts;
ghost use Rattle.stan_places.specs.Gives.{Gives, at};
ghost use Rattle.stan_stmt_compound.specs.Views as views;
ghost use Rattle.stan_stmt_parts.specs.Gives as spec;

use sqlite_items::Items;
use stan_model_grammar::token::{Token, TokenKind};
use stan_places::stop::Stop;
use stan_stmt_lists::blocks::Block;
use stan_stmt_lists::heads::{CatchHead, Caught};
use stan_stmt_parts::depth::{Depth, enter};
use stan_stmt_parts::parser::{Parser, Part, Reader, stands, with_first};
use stan_stmt_trees::{Catch, Form, Stmt};

/// A `catch`.
pub struct CatchPart;

impl Part for CatchPart {
    type Tree = Catch;

    ghost sort = { sorts.CatchPart };

    ghost view = { views.catch_piece };

    #[tactic(auto, unfolding(stan_stmt_rules::specs::Ahead::pick_at, stan_model_statements::specs::Kinds::same_kind))]
    fn begins(tokens: &[Token], place: usize) -> bool {
        stands(tokens, TokenKind::Catch, place)
    }

    #[tactic(auto, using(stan_stmt_parts::proofs::Singles::part_enters, crate::proofs::PartLemmas::catch_is), unfolding(stan_stmt_parts::specs::Gives::entered, stan_stmt_parts::specs::Gives::inside, stan_stmt_parts::specs::Parse::first_at, stan_model_statements::specs::Kinds::same_kind))]
    fn read<R: Reader>(
        parser: &Parser<'_, R>,
        depth: Depth,
        place: usize,
    ) -> Result<(Catch, usize), Stop> {
        let depth = enter(depth, 0)?;
        let (first, to) = parser.keyword(TokenKind::Catch, place)?;
        let (caught, to) = CatchHead::read(parser, depth, to)?;
        let (statements, to) = Block::read(parser, depth, to)?;
        let Caught { classes, variable } = caught;
        let catch = Catch {
            first,
            classes,
            variable,
            statements,
        };
        Ok((catch, to))
    }
}

/// A `finally`.
pub struct FinallyPart;

impl Part for FinallyPart {
    type Tree = Items<Stmt>;

    ghost sort = { sorts.FinallyPart };

    ghost view = { views.finally_piece };

    #[tactic(auto, unfolding(stan_stmt_rules::specs::Ahead::pick_at, stan_model_statements::specs::Kinds::same_kind))]
    fn begins(tokens: &[Token], place: usize) -> bool {
        stands(tokens, TokenKind::Finally, place)
    }

    #[tactic(auto, using(stan_stmt_parts::proofs::Singles::part_enters), unfolding(stan_stmt_parts::specs::Gives::entered, stan_stmt_parts::specs::Gives::inside, stan_stmt_parts::specs::Parse::first_at, stan_model_statements::specs::Kinds::same_kind))]
    fn read<R: Reader>(
        parser: &Parser<'_, R>,
        depth: Depth,
        place: usize,
    ) -> Result<(Items<Stmt>, usize), Stop> {
        let depth = enter(depth, 0)?;
        let to = parser.expect(TokenKind::Finally, place)?;
        let (statements, to) = Block::read(parser, depth, to)?;
        Ok((statements, to))
    }
}

/// What stands behind the block of a `try`: at least one `catch`, or a `finally`.
#[derive(Drop)]
pub struct Handling {
    pub catches: Items<Catch>,
    pub finally: Option<Items<Stmt>>,
}

// At least one `catch`, and the `finally` if it stands.
#[tactic(auto, using(crate::proofs::PartLemmas::with_catches), unfolding(stan_stmt_parts::specs::Gives::entered, stan_stmt_parts::specs::Gives::inside, stan_stmt_parts::specs::Parse::first_at, stan_model_statements::specs::Kinds::same_kind))]
fn catches<R: Reader>(
    parser: &Parser<'_, R>,
    depth: Depth,
    place: usize,
) -> Result<(Handling, usize), Stop>
    requires room { depth.room ≤ R.room parser.now.reader }
    requires ready { R.ready parser.now.reader }
    ensures { Gives (at (λ x. views.handlers_of x.catches x.finally)) result (spec.entered parser.now.tokens.now (R.leaves parser.now.reader) depth rules.catches place) }
{
    let depth = enter(depth, 0)?;
    let (first, to) = CatchPart::read(parser, depth, place)?;
    let (more, to) = parser.all::<CatchPart>(depth, to)?;
    let (finally, to) = parser.maybe::<FinallyPart>(depth, to)?;
    let catches = with_first(parser.alloc, first, more)?;
    Ok((Handling { catches, finally }, to))
}

// A `finally` alone.
#[tactic(auto, using(crate::proofs::PartLemmas::without_catches), unfolding(stan_stmt_parts::specs::Gives::entered, stan_stmt_parts::specs::Gives::inside, stan_stmt_parts::specs::Parse::first_at, stan_model_statements::specs::Kinds::same_kind))]
fn only_finally<R: Reader>(
    parser: &Parser<'_, R>,
    depth: Depth,
    place: usize,
) -> Result<(Handling, usize), Stop>
    requires room { depth.room ≤ R.room parser.now.reader }
    requires ready { R.ready parser.now.reader }
    ensures { Gives (at (λ x. views.handlers_of x.catches x.finally)) result (spec.entered parser.now.tokens.now (R.leaves parser.now.reader) depth rules.only_finally place) }
{
    let depth = enter(depth, 0)?;
    let (statements, to) = FinallyPart::read(parser, depth, place)?;
    let handling = Handling {
        catches: Items::new(parser.alloc),
        finally: Some(statements),
    };
    Ok((handling, to))
}

/// At least one `catch`, or a `finally`.
pub struct Handlers;

impl Part for Handlers {
    type Tree = Handling;

    ghost sort = { sorts.Handlers };

    ghost view = { λ x. views.handlers_of x.catches x.finally };

    #[tactic(auto, unfolding(stan_stmt_rules::specs::Ahead::pick_at, stan_model_statements::specs::Kinds::same_kind))]
    fn begins(tokens: &[Token], place: usize) -> bool {
        stands(tokens, TokenKind::Catch, place) || stands(tokens, TokenKind::Finally, place)
    }

    #[tactic(auto, using(stan_stmt_parts::proofs::Turns::part_picked), unfolding(stan_model_statements::specs::Kinds::same_kind, stan_stmt_rules::specs::Ahead::pick_at))]
    fn read<R: Reader>(
        parser: &Parser<'_, R>,
        depth: Depth,
        place: usize,
    ) -> Result<(Handling, usize), Stop> {
        if stands(parser.tokens, TokenKind::Catch, place) {
            return catches(parser, depth, place);
        }
        if stands(parser.tokens, TokenKind::Finally, place) {
            return only_finally(parser, depth, place);
        }
        Err(Stop::Absent)
    }
}

/// A `try`, with all `catch`es and the `finally` that stand behind it.
#[tactic(auto, using(crate::proofs::FormLemmas::try_is), unfolding(stan_stmt_parts::specs::Gives::entered, stan_stmt_parts::specs::Gives::inside, stan_stmt_parts::specs::Parse::first_at, stan_model_statements::specs::Kinds::same_kind))]
pub fn try_statement<R: Reader>(
    parser: &Parser<'_, R>,
    depth: Depth,
    place: usize,
) -> Result<(Stmt, usize), Stop>
    requires room { depth.room ≤ R.room parser.now.reader }
    requires ready { R.ready parser.now.reader }
    ensures { Gives (at spec.statement_piece) result (spec.entered parser.now.tokens.now (R.leaves parser.now.reader) depth rules.try_statement place) }
{
    let depth = enter(depth, 1)?;
    let (first, to) = parser.keyword(TokenKind::Try, place)?;
    let (body, to) = Block::read(parser, depth, to)?;
    let (handling, to) = Handlers::read(parser, depth, to)?;
    let Handling { catches, finally } = handling;
    let form = Form::Try {
        body,
        catches,
        finally,
    };
    Ok((Stmt { first, form }, to))
}
