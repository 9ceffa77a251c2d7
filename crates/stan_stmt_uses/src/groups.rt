//! Names in braces, behind a name that they share.

ghost use Rattle.std.specs.Prelude.{◌≡◌, ◌+◌};
ghost use Rattle.stan_model_grammar.specs.declared.token.TokenKind.TheVariants as kinds;
ghost use Rattle.stan_model_grammar.specs.Strata as strata;
ghost use Rattle.stan_model_statements.specs.Kinds.{has, same_kind};
ghost use Rattle.stan_model_statements.specs.Symbols as sorts;
ghost use Rattle.stan_stmt_rules.specs.Ahead as ahead;
ghost use Rattle.stan_stmt_uses.specs.Views as views;

use crate::uses::read_item;
use sqlite_items::Items;
use stan_model_grammar::token::{Token, TokenKind};
use stan_places::places::{kind_at, next_kind};
use stan_places::stop::Stop;
use stan_stmt_ahead::kinds::is_name;
use stan_stmt_items::words::UseKind;
use stan_stmt_parts::depth::{Depth, enter};
use stan_stmt_parts::parser::{Parser, Part, Reader, stands, with_first};
use stan_stmt_trees::Used;

/// Whether it can begin an item of a group.
#[tactic(auto, unfolding(stan_model_statements::specs::Kinds::same_kind))]
pub fn begins_group_item(kind: TokenKind) -> bool
    ensures { result ≡ has (ahead.begins sorts.GroupItem) kind }
{
    match kind {
        TokenKind::Function => true,
        TokenKind::Const => true,
        kind => is_name(kind),
    }
}

/// A name with its alias, and what it brings: `function` or `const`.
pub struct GroupItem;

impl Part for GroupItem {
    type Tree = Used;

    ghost sort = { sorts.GroupItem };

    ghost view = { views.group_item_piece };

    #[tactic(auto, unfolding(stan_stmt_rules::specs::Ahead::pick_at))]
    fn begins(tokens: &[Token], place: usize) -> bool {
        begins_group_item(kind_at(tokens, place))
    }

    #[tactic(auto, using(stan_stmt_parts::proofs::Singles::part_if, stan_stmt_parts::proofs::Options::worded), unfolding(stan_stmt_parts::specs::Gives::entered, stan_stmt_parts::specs::Gives::inside, stan_stmt_parts::specs::Parse::first_at, stan_model_statements::specs::Kinds::same_kind))]
    fn read<R: Reader>(
        parser: &Parser<'_, R>,
        depth: Depth,
        place: usize,
    ) -> Result<(Used, usize), Stop> {
        if !begins_group_item(kind_at(parser.tokens, place)) {
            return Err(Stop::Absent);
        }
        let depth = enter(depth, 0)?;
        let (kind, to) = parser.maybe::<UseKind>(depth, place)?;
        let (item, to) = read_item(parser, depth, kind, to)?;
        Ok((item, to))
    }
}

/// A further item of a group, behind whose last a `,` may stand.
pub struct FurtherGroupItem;

impl Part for FurtherGroupItem {
    type Tree = Used;

    ghost sort = { sorts.FurtherGroupItem };

    ghost view = { views.further_group_item_piece };

    #[tactic(auto, unfolding(stan_stmt_rules::specs::Ahead::pick_at))]
    fn begins(tokens: &[Token], place: usize) -> bool {
        stands(tokens, TokenKind::Comma, place) && begins_group_item(next_kind(tokens, place))
    }

    #[tactic(auto, using(stan_stmt_parts::proofs::Turns::part_picked), unfolding(stan_stmt_parts::specs::Gives::entered, stan_stmt_parts::specs::Gives::inside, stan_stmt_parts::specs::Parse::first_at, stan_stmt_rules::specs::Ahead::pick_at))]
    fn read<R: Reader>(
        parser: &Parser<'_, R>,
        depth: Depth,
        place: usize,
    ) -> Result<(Used, usize), Stop> {
        if !stands(parser.tokens, TokenKind::Comma, place) {
            return Err(Stop::Absent);
        }
        if !begins_group_item(next_kind(parser.tokens, place)) {
            return Err(Stop::Absent);
        }
        let depth = enter(depth, 0)?;
        let to = parser.expect(TokenKind::Comma, place)?;
        let (item, to) = GroupItem::read(parser, depth, to)?;
        Ok((item, to))
    }
}

// Whether a `}` stands behind this place.
#[tactic(auto, unfolding(stan_model_statements::specs::Kinds::same_kind))]
fn closes_next(tokens: &[Token], place: usize) -> bool
    ensures { result ≡ same_kind (strata.kind_at tokens.now (place + 1)) kinds.RightBrace }
{
    next_kind(tokens, place) == TokenKind::RightBrace
}

/// The `}` of a group, and whether a `,` stands before it.
pub struct GroupEnd;

impl Part for GroupEnd {
    type Tree = bool;

    ghost sort = { sorts.GroupEnd };

    ghost view = { views.group_end_of };

    #[tactic(auto, unfolding(stan_stmt_rules::specs::Ahead::pick_at, stan_model_statements::specs::Kinds::same_kind))]
    fn begins(tokens: &[Token], place: usize) -> bool {
        match kind_at(tokens, place) {
            TokenKind::RightBrace => true,
            TokenKind::Comma => next_kind(tokens, place) == TokenKind::RightBrace,
            _ => false,
        }
    }

    #[tactic(auto, using(crate::proofs::PickLemmas::group_end_by), unfolding(stan_stmt_parts::specs::Gives::entered, stan_stmt_parts::specs::Gives::inside, stan_stmt_parts::specs::Parse::first_at, stan_model_statements::specs::Kinds::same_kind))]
    fn read<R: Reader>(
        parser: &Parser<'_, R>,
        depth: Depth,
        place: usize,
    ) -> Result<(bool, usize), Stop> {
        if stands(parser.tokens, TokenKind::RightBrace, place) {
            let _depth = enter(depth, 0)?;
            let to = parser.expect(TokenKind::RightBrace, place)?;
            return Ok((false, to));
        }
        if !stands(parser.tokens, TokenKind::Comma, place) {
            return Err(Stop::Absent);
        }
        if !closes_next(parser.tokens, place) {
            return Err(Stop::Absent);
        }
        let _depth = enter(depth, 0)?;
        let to = parser.expect(TokenKind::Comma, place)?;
        let to = parser.expect(TokenKind::RightBrace, to)?;
        Ok((true, to))
    }
}

/// The items of a group in braces, and whether a `,` stands behind the last.
pub struct GroupItems;

impl Part for GroupItems {
    type Tree = (Items<Used>, bool);

    ghost sort = { sorts.GroupItems };

    ghost view = { views.group_items_of };

    #[tactic(auto, unfolding(stan_stmt_rules::specs::Ahead::pick_at, stan_model_statements::specs::Kinds::same_kind))]
    fn begins(tokens: &[Token], place: usize) -> bool {
        stands(tokens, TokenKind::LeftBrace, place)
    }

    #[tactic(auto, using(stan_stmt_parts::proofs::Singles::part_enters, crate::proofs::ItemLemmas::group_items_are, crate::proofs::ItemLemmas::ends), unfolding(stan_stmt_parts::specs::Gives::entered, stan_stmt_parts::specs::Gives::inside, stan_stmt_parts::specs::Parse::first_at, stan_model_statements::specs::Kinds::same_kind))]
    fn read<R: Reader>(
        parser: &Parser<'_, R>,
        depth: Depth,
        place: usize,
    ) -> Result<((Items<Used>, bool), usize), Stop> {
        let depth = enter(depth, 1)?;
        let to = parser.expect(TokenKind::LeftBrace, place)?;
        let (first, to) = GroupItem::read(parser, depth, to)?;
        let (more, to) = parser.all::<FurtherGroupItem>(depth, to)?;
        let (comma, to) = GroupEnd::read(parser, depth, to)?;
        let items = with_first(parser.alloc, first, more)?;
        Ok(((items, comma), to))
    }
}
