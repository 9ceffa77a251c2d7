//! What becomes of the methods that a class takes from its traits.

ghost use Rattle.std.specs.Prelude.{◌≡◌, ◌≤◌, ◌+◌};
ghost use Rattle.stan_model_grammar.specs.Strata as strata;
ghost use Rattle.stan_model_statements.specs.Kinds.{has, same_kind};
ghost use Rattle.stan_model_statements.specs.Rules as rules;
ghost use Rattle.stan_model_statements.specs.Symbols as sorts;
ghost use Rattle.stan_places.specs.Gives.{Gives, at};
ghost use Rattle.stan_stmt_adaptations.specs.Views as views;
ghost use Rattle.stan_stmt_parts.specs.Gives as spec;
ghost use Rattle.stan_stmt_rules.specs.Ahead as ahead;

use crate::aliases::Alias;
use sqlite_items::Items;
use stan_model_grammar::token::{Token, TokenKind};
use stan_places::places::{kind_at, next_kind};
use stan_places::stop::Stop;
use stan_stmt_ahead::kinds::{is_member_name, is_name};
use stan_stmt_items::names::Names;
use stan_stmt_parts::depth::{Depth, enter};
use stan_stmt_parts::parser::{Parser, Part, Reader, stands, with_first};
use stan_stmt_parts::words::{MemberNames, Names as NameWords};
use stan_stmt_trees::{Adaptation as AdaptationTree, Adapting};

// Whether a token of this kind stands behind this place.
#[tactic(auto, unfolding(stan_model_statements::specs::Kinds::same_kind))]
fn stands_next(tokens: &[Token], kind: TokenKind, place: usize) -> bool
    ensures { result ≡ same_kind (strata.kind_at tokens.now (place + 1)) kind }
{
    next_kind(tokens, place) == kind
}

/// The trait before a `::`.
pub struct AdaptedTrait;

impl Part for AdaptedTrait {
    type Tree = Token;

    ghost sort = { sorts.AdaptedTrait };

    ghost view = { views.adapted_trait_piece };

    #[tactic(auto, unfolding(stan_stmt_rules::specs::Ahead::pick_at))]
    fn begins(tokens: &[Token], place: usize) -> bool {
        is_name(kind_at(tokens, place)) && stands_next(tokens, TokenKind::DoubleColon, place)
    }

    #[tactic(auto, using(stan_stmt_parts::proofs::Turns::part_picked), unfolding(stan_stmt_parts::specs::Gives::entered, stan_stmt_parts::specs::Gives::inside, stan_stmt_parts::specs::Parse::first_at, stan_stmt_rules::specs::Ahead::pick_at))]
    fn read<R: Reader>(
        parser: &Parser<'_, R>,
        depth: Depth,
        place: usize,
    ) -> Result<(Token, usize), Stop> {
        if !is_name(kind_at(parser.tokens, place)) {
            return Err(Stop::Absent);
        }
        if !stands_next(parser.tokens, TokenKind::DoubleColon, place) {
            return Err(Stop::Absent);
        }
        let _depth = enter(depth, 0)?;
        let (name, to) = parser.word::<NameWords>(place)?;
        let to = parser.expect(TokenKind::DoubleColon, to)?;
        Ok((name, to))
    }
}

/// A method, and what becomes of it.
#[derive(Drop)]
pub struct Adapted {
    pub method: Token,
    pub adapting: Adapting,
}

// `insteadof`, with the traits whose method it stands for.
#[tactic(auto, unfolding(stan_stmt_parts::specs::Gives::entered, stan_stmt_parts::specs::Gives::inside, stan_stmt_parts::specs::Parse::first_at))]
fn precedence<R: Reader>(
    parser: &Parser<'_, R>,
    depth: Depth,
    place: usize,
) -> Result<(Adapted, usize), Stop>
    requires room { depth.room ≤ R.room parser.now.reader }
    requires ready { R.ready parser.now.reader }
    ensures { Gives (at (λ x. views.adapting_piece x.method x.adapting)) result (spec.entered parser.now.tokens.now (R.leaves parser.now.reader) depth rules.precedence place) }
{
    let depth = enter(depth, 0)?;
    let (method, to) = parser.word::<MemberNames>(place)?;
    let to = parser.expect(TokenKind::InsteadOf, to)?;
    let ((first, more), to) = Names::read(parser, depth, to)?;
    let to = parser.expect(TokenKind::Semicolon, to)?;
    let traits = with_first(parser.alloc, first, more)?;
    let adapting = Adapting::InsteadOf(traits);
    Ok((Adapted { method, adapting }, to))
}

// `as`, with a visibility, a name, or both.
#[tactic(auto, using(crate::proofs::AdaptationLemmas::alias_stands), unfolding(stan_stmt_parts::specs::Gives::entered, stan_stmt_parts::specs::Gives::inside, stan_stmt_parts::specs::Parse::first_at))]
fn alias<R: Reader>(
    parser: &Parser<'_, R>,
    depth: Depth,
    place: usize,
) -> Result<(Adapted, usize), Stop>
    requires room { depth.room ≤ R.room parser.now.reader }
    requires ready { R.ready parser.now.reader }
    ensures { Gives (at (λ x. views.adapting_piece x.method x.adapting)) result (spec.entered parser.now.tokens.now (R.leaves parser.now.reader) depth rules.alias place) }
{
    let depth = enter(depth, 0)?;
    let (method, to) = parser.word::<MemberNames>(place)?;
    let to = parser.expect(TokenKind::As, to)?;
    let (renamed, to) = Alias::read(parser, depth, to)?;
    let adapting = Adapting::Alias {
        visibility: renamed.visibility(),
        name: renamed.name(),
    };
    Ok((Adapted { method, adapting }, to))
}

/// A method, with `insteadof` or `as`.
pub struct AdaptationRest;

impl Part for AdaptationRest {
    type Tree = Adapted;

    ghost sort = { sorts.AdaptationRest };

    ghost view = { λ x. views.adapting_piece x.method x.adapting };

    #[tactic(auto, unfolding(stan_stmt_rules::specs::Ahead::pick_at))]
    fn begins(tokens: &[Token], place: usize) -> bool {
        if !is_member_name(kind_at(tokens, place)) {
            return false;
        }
        stands_next(tokens, TokenKind::InsteadOf, place)
            || stands_next(tokens, TokenKind::As, place)
    }

    #[tactic(auto, using(stan_stmt_parts::proofs::Turns::part_picked), unfolding(stan_stmt_rules::specs::Ahead::pick_at))]
    fn read<R: Reader>(
        parser: &Parser<'_, R>,
        depth: Depth,
        place: usize,
    ) -> Result<(Adapted, usize), Stop> {
        if !is_member_name(kind_at(parser.tokens, place)) {
            return Err(Stop::Absent);
        }
        if stands_next(parser.tokens, TokenKind::InsteadOf, place) {
            return precedence(parser, depth, place);
        }
        if stands_next(parser.tokens, TokenKind::As, place) {
            return alias(parser, depth, place);
        }
        Err(Stop::Absent)
    }
}

/// Whether it can begin an adaptation.
#[tactic(auto, unfolding(stan_model_statements::specs::Kinds::same_kind))]
pub fn begins_adaptation(kind: TokenKind) -> bool
    ensures { result ≡ has (ahead.begins sorts.Adaptation) kind }
{
    match kind {
        TokenKind::QualifiedName => true,
        TokenKind::FullyQualifiedName => true,
        TokenKind::RelativeName => true,
        kind => is_member_name(kind),
    }
}

/// What becomes of a method that a class takes from its traits.
pub struct Adaptation;

impl Part for Adaptation {
    type Tree = AdaptationTree;

    ghost sort = { sorts.Adaptation };

    ghost view = { views.adaptation_piece };

    #[tactic(auto, unfolding(stan_stmt_rules::specs::Ahead::pick_at))]
    fn begins(tokens: &[Token], place: usize) -> bool {
        begins_adaptation(kind_at(tokens, place))
    }

    #[tactic(auto, using(stan_stmt_parts::proofs::Singles::part_if, crate::proofs::AdaptationLemmas::adaptation_parts), unfolding(stan_stmt_parts::specs::Gives::entered, stan_stmt_parts::specs::Gives::inside, stan_stmt_parts::specs::Parse::first_at))]
    fn read<R: Reader>(
        parser: &Parser<'_, R>,
        depth: Depth,
        place: usize,
    ) -> Result<(AdaptationTree, usize), Stop> {
        if !begins_adaptation(kind_at(parser.tokens, place)) {
            return Err(Stop::Absent);
        }
        let depth = enter(depth, 0)?;
        let (from, to) = parser.maybe::<AdaptedTrait>(depth, place)?;
        let (adapted, to) = AdaptationRest::read(parser, depth, to)?;
        let Adapted { method, adapting } = adapted;
        let adaptation = AdaptationTree {
            from,
            method,
            adapting,
        };
        Ok((adaptation, to))
    }
}

/// Adaptations, one behind the other in braces.
pub struct Adaptations;

impl Part for Adaptations {
    type Tree = Items<AdaptationTree>;

    ghost sort = { sorts.Adaptations };

    ghost view = { views.adaptations_piece };

    #[tactic(auto, unfolding(stan_stmt_rules::specs::Ahead::pick_at, stan_model_statements::specs::Kinds::same_kind))]
    fn begins(tokens: &[Token], place: usize) -> bool {
        stands(tokens, TokenKind::LeftBrace, place)
    }

    #[tactic(auto, using(stan_stmt_parts::proofs::Singles::part_enters, crate::proofs::AdaptationLemmas::adaptations_are), unfolding(stan_stmt_parts::specs::Gives::entered, stan_stmt_parts::specs::Gives::inside, stan_stmt_parts::specs::Parse::first_at, stan_model_statements::specs::Kinds::same_kind))]
    fn read<R: Reader>(
        parser: &Parser<'_, R>,
        depth: Depth,
        place: usize,
    ) -> Result<(Items<AdaptationTree>, usize), Stop> {
        let depth = enter(depth, 1)?;
        let to = parser.expect(TokenKind::LeftBrace, place)?;
        let (adaptations, to) = parser.all::<Adaptation>(depth, to)?;
        let to = parser.expect(TokenKind::RightBrace, to)?;
        Ok((adaptations, to))
    }
}

// A `;` alone.
#[tactic(auto, unfolding(stan_stmt_parts::specs::Gives::entered, stan_stmt_parts::specs::Gives::inside, stan_stmt_parts::specs::Parse::first_at))]
fn no_adaptations<R: Reader>(
    parser: &Parser<'_, R>,
    depth: Depth,
    place: usize,
) -> Result<(Option<Items<AdaptationTree>>, usize), Stop>
    ensures { Gives (at views.use_end_piece) result (spec.entered parser.now.tokens.now (R.leaves parser.now.reader) depth rules.no_adaptations place) }
{
    let _depth = enter(depth, 0)?;
    let to = parser.expect(TokenKind::Semicolon, place)?;
    Ok((None, to))
}

// Adaptations in braces.
#[tactic(auto, unfolding(stan_stmt_parts::specs::Gives::entered, stan_stmt_parts::specs::Gives::inside, stan_stmt_parts::specs::Parse::first_at))]
fn some_adaptations<R: Reader>(
    parser: &Parser<'_, R>,
    depth: Depth,
    place: usize,
) -> Result<(Option<Items<AdaptationTree>>, usize), Stop>
    requires room { depth.room ≤ R.room parser.now.reader }
    requires ready { R.ready parser.now.reader }
    ensures { Gives (at views.use_end_piece) result (spec.entered parser.now.tokens.now (R.leaves parser.now.reader) depth rules.adaptations place) }
{
    let depth = enter(depth, 0)?;
    let (adaptations, to) = Adaptations::read(parser, depth, place)?;
    Ok((Some(adaptations), to))
}

/// The end of a `use` of traits: a `;`, or adaptations in braces.
pub struct TraitUseEnd;

impl Part for TraitUseEnd {
    type Tree = Option<Items<AdaptationTree>>;

    ghost sort = { sorts.TraitUseEnd };

    ghost view = { views.use_end_piece };

    #[tactic(auto, unfolding(stan_stmt_rules::specs::Ahead::pick_at, stan_model_statements::specs::Kinds::same_kind))]
    fn begins(tokens: &[Token], place: usize) -> bool {
        stands(tokens, TokenKind::Semicolon, place) || stands(tokens, TokenKind::LeftBrace, place)
    }

    #[tactic(auto, using(stan_stmt_parts::proofs::Turns::part_picked), unfolding(stan_stmt_rules::specs::Ahead::pick_at, stan_model_statements::specs::Kinds::same_kind))]
    fn read<R: Reader>(
        parser: &Parser<'_, R>,
        depth: Depth,
        place: usize,
    ) -> Result<(Option<Items<AdaptationTree>>, usize), Stop> {
        if stands(parser.tokens, TokenKind::Semicolon, place) {
            return no_adaptations(parser, depth, place);
        }
        if stands(parser.tokens, TokenKind::LeftBrace, place) {
            return some_adaptations(parser, depth, place);
        }
        Err(Stop::Absent)
    }
}
