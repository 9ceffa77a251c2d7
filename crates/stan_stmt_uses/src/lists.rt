//! What stands behind `use`, and what it brings, up to its end: names in a list, or in a group.

ghost use Rattle.std.specs.Prelude.{◌≤◌};
ghost use Rattle.stan_model_statements.specs.Rules as rules;
ghost use Rattle.stan_model_statements.specs.Symbols as sorts;
ghost use Rattle.stan_places.specs.Gives.{Gives, at};
ghost use Rattle.stan_stmt_parts.specs.Gives as spec;
ghost use Rattle.stan_stmt_uses.specs.Views as views;

use crate::groups::GroupItems;
use crate::uses::{FurtherUseItem, UseItem};
use sqlite_items::Items;
use stan_model_grammar::token::{Token, TokenKind};
use stan_places::places::{kind_at, next_kind};
use stan_places::stop::Stop;
use stan_stmt_ahead::kinds::is_name;
use stan_stmt_parts::depth::{Depth, enter};
use stan_stmt_parts::parser::{Parser, Part, Reader, with_first};
use stan_stmt_parts::words::{Ends, Names};
use stan_stmt_trees::Used;

/// What a `use` brings.
#[derive(Drop)]
pub enum Brought {
    List {
        /// At least one.
        items: Items<Used>,
        end: Token,
    },
    Group {
        /// The name before the braces.
        name: Token,
        /// At least one.
        items: Items<Used>,
        /// Whether a `,` stands behind the last.
        comma: bool,
        end: Token,
    },
}

/// What a `use` brings, up to its end.
pub struct UseRest;

impl Part for UseRest {
    type Tree = Brought;

    ghost sort = { sorts.UseRest };

    ghost view = { views.brought_of };

    #[tactic(auto, unfolding(stan_stmt_rules::specs::Ahead::pick_at, stan_model_statements::specs::Kinds::same_kind))]
    fn begins(tokens: &[Token], place: usize) -> bool {
        is_name(kind_at(tokens, place))
    }

    #[tactic(auto, using(stan_stmt_parts::proofs::Turns::part_picked), unfolding(stan_stmt_rules::specs::Ahead::pick_at, stan_model_statements::specs::Kinds::same_kind))]
    fn read<R: Reader>(
        parser: &Parser<'_, R>,
        depth: Depth,
        place: usize,
    ) -> Result<(Brought, usize), Stop> {
        if !is_name(kind_at(parser.tokens, place)) {
            return Err(Stop::Absent);
        }
        if next_kind(parser.tokens, place) == TokenKind::Backslash {
            use_group(parser, depth, place)
        } else {
            use_list(parser, depth, place)
        }
    }
}

/// Names with `,` between them.
#[tactic(auto, using(crate::proofs::ItemLemmas::list_items_are, crate::proofs::ItemLemmas::item_stands), unfolding(stan_stmt_parts::specs::Gives::entered, stan_stmt_parts::specs::Gives::inside, stan_stmt_parts::specs::Parse::first_at))]
fn use_list<R: Reader>(
    parser: &Parser<'_, R>,
    depth: Depth,
    place: usize,
) -> Result<(Brought, usize), Stop>
    requires room { depth.room ≤ R.room parser.now.reader }
    requires ready { R.ready parser.now.reader }
    ensures { Gives (at views.brought_of) result (spec.entered parser.now.tokens.now (R.leaves parser.now.reader) depth rules.use_list place) }
{
    let depth = enter(depth, 0)?;
    let (first, to) = UseItem::read(parser, depth, place)?;
    let (more, to) = parser.all::<FurtherUseItem>(depth, to)?;
    let (end, to) = parser.word::<Ends>(to)?;
    let items = with_first(parser.alloc, first, more)?;
    Ok((Brought::List { items, end }, to))
}

/// A name, and those in the braces behind it.
#[tactic(auto, unfolding(stan_stmt_parts::specs::Gives::entered, stan_stmt_parts::specs::Gives::inside, stan_stmt_parts::specs::Parse::first_at))]
fn use_group<R: Reader>(
    parser: &Parser<'_, R>,
    depth: Depth,
    place: usize,
) -> Result<(Brought, usize), Stop>
    requires room { depth.room ≤ R.room parser.now.reader }
    requires ready { R.ready parser.now.reader }
    ensures { Gives (at views.brought_of) result (spec.entered parser.now.tokens.now (R.leaves parser.now.reader) depth rules.use_group place) }
{
    let depth = enter(depth, 0)?;
    let (name, to) = parser.word::<Names>(place)?;
    let to = parser.expect(TokenKind::Backslash, to)?;
    let ((items, comma), to) = GroupItems::read(parser, depth, to)?;
    let (end, to) = parser.word::<Ends>(to)?;
    let brought = Brought::Group {
        name,
        items,
        comma,
        end,
    };
    Ok((brought, to))
}
