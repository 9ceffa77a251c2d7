//! Declarations and statements at the top, one behind the other, also in the braces of a namespace.

ghost use Rattle.std.specs.Prelude.{◌≡◌, ◌<◌, ◌≤◌, ℕ, map, option_map};
ghost use Rattle.std.specs.Option.{is_some};
ghost use Rattle.stan_model_grammar.specs.declared.token.TokenKind.{TokenKind};
ghost use Rattle.stan_model_statements.specs.Rules as rules;
ghost use Rattle.stan_model_statements.specs.Symbols as sorts;
ghost use Rattle.stan_places.specs.Gives.{Gives, at};
ghost use Rattle.stan_stmt_parts.specs.Gives as spec;
ghost use Rattle.stan_stmt_rules.specs.Ahead as ahead;
ghost use Rattle.stan_stmt_rules.specs.Ahead.{pick_at};
ghost use Rattle.stan_stmt_tops.specs.Views as views;

use crate::plain::{namespace_statement, top_statement, use_declaration};
use sqlite_items::Items;
use stan_model_grammar::token::{Token, TokenKind};
use stan_places::places::{kind_at, next_kind};
use stan_places::stop::Stop;
use stan_stmt_ahead::kinds::begins_statement;
use stan_stmt_items::words::NamespaceName;
use stan_stmt_parts::depth::{Depth, enter};
use stan_stmt_parts::parser::{Parser, Reader, third_kind};
use stan_stmt_trees::Top;

/// The productions of what stands at the top.
#[derive(Clone, Copy, Debug)]
pub enum TopRule {
    Namespace,
    NamespaceBlock,
    Use,
    Plain,
}

/// The production of what stands at the top, by the kinds of its next three tokens.
#[tactic(auto, unfolding(stan_model_statements::specs::Kinds::same_kind))]
pub fn pick_top(first: TokenKind, second: TokenKind, third: TokenKind) -> Option<TopRule>
    ensures { option_map views.top_rule result ≡ ahead.top_by first second third }
{
    if first == TokenKind::Namespace {
        if second == TokenKind::LeftBrace || third == TokenKind::LeftBrace {
            return Some(TopRule::NamespaceBlock);
        }
        return Some(TopRule::Namespace);
    }
    if first == TokenKind::Use {
        return Some(TopRule::Use);
    }
    if begins_statement(first) {
        Some(TopRule::Plain)
    } else {
        None
    }
}

/// Whether a declaration or a statement begins at a place.
#[tactic(auto, unfolding(stan_stmt_rules::specs::Ahead::pick_at))]
pub fn begins_top(tokens: &[Token], place: usize) -> bool
    ensures { (behind : ℕ → TokenKind) → result ≡ is_some (pick_at tokens.now behind sorts.Top place) }
{
    let first = kind_at(tokens, place);
    let second = next_kind(tokens, place);
    pick_top(first, second, third_kind(tokens, place)).is_some()
}

/// The declaration or statement there.
#[cycle(tops)]
#[tactic(auto, using(stan_stmt_parts::proofs::Turns::part_picked), unfolding(stan_stmt_rules::specs::Ahead::pick_at))]
pub fn read_top<R: Reader>(
    parser: &Parser<'_, R>,
    depth: Depth,
    place: usize,
) -> Result<(Top, usize), Stop>
    requires room { depth.room < R.room parser.now.reader }
    requires ready { R.ready parser.now.reader }
    ensures { Gives (at views.top_piece) result (spec.part parser.now.tokens.now (R.leaves parser.now.reader) depth sorts.Top place) }
{
    let first = kind_at(parser.tokens, place);
    let second = next_kind(parser.tokens, place);
    match pick_top(first, second, third_kind(parser.tokens, place)) {
        Some(TopRule::Namespace) => namespace_statement(parser, depth, place),
        Some(TopRule::NamespaceBlock) => namespace_block(parser, depth, place),
        Some(TopRule::Use) => use_declaration(parser, depth, place),
        Some(TopRule::Plain) => top_statement(parser, depth, place),
        None => Err(Stop::Absent),
    }
}

/// A `namespace` of what stands in the braces behind it.
#[cycle(tops)]
#[tactic(auto, using(crate::proofs::TopLemmas::namespace_block_is), unfolding(stan_stmt_parts::specs::Gives::entered, stan_stmt_parts::specs::Gives::inside, stan_stmt_parts::specs::Parse::first_at, stan_model_statements::specs::Kinds::same_kind))]
fn namespace_block<R: Reader>(
    parser: &Parser<'_, R>,
    depth: Depth,
    place: usize,
) -> Result<(Top, usize), Stop>
    requires room { depth.room ≤ R.room parser.now.reader }
    requires ready { R.ready parser.now.reader }
    ensures { Gives (at views.top_piece) result (spec.entered parser.now.tokens.now (R.leaves parser.now.reader) depth rules.namespace_block place) }
{
    let depth = enter(depth, 0)?;
    let (first, to) = parser.keyword(TokenKind::Namespace, place)?;
    let (name, to) = parser.maybe::<NamespaceName>(depth, to)?;
    let (tops, to) = tops_in_braces(parser, depth, to)?;
    Ok((Top::NamespaceBlock { first, name, tops }, to))
}

/// Declarations and statements in braces.
#[cycle(tops)]
#[tactic(auto, using(stan_stmt_parts::proofs::Singles::part_enters, crate::proofs::TopLemmas::tops_are), unfolding(stan_stmt_parts::specs::Gives::entered, stan_stmt_parts::specs::Gives::inside, stan_stmt_parts::specs::Parse::first_at, stan_model_statements::specs::Kinds::same_kind))]
fn tops_in_braces<R: Reader>(
    parser: &Parser<'_, R>,
    depth: Depth,
    place: usize,
) -> Result<(Items<Top>, usize), Stop>
    requires room { depth.room < R.room parser.now.reader }
    requires ready { R.ready parser.now.reader }
    ensures { Gives (at views.tops_of) result (spec.part parser.now.tokens.now (R.leaves parser.now.reader) depth sorts.Tops place) }
{
    let depth = enter(depth, 1)?;
    let to = parser.expect(TokenKind::LeftBrace, place)?;
    let (tops, to) = all_tops(parser, depth, to)?;
    let to = parser.expect(TokenKind::RightBrace, to)?;
    Ok((tops, to))
}

/// Declarations and statements one behind the other, as many as there are.
#[cycle(tops)]
pub fn all_tops<R: Reader>(
    parser: &Parser<'_, R>,
    depth: Depth,
    from: usize,
) -> Result<(Items<Top>, usize), Stop>
    requires room { depth.room < R.room parser.now.reader }
    requires ready { R.ready parser.now.reader }
    ensures { Gives (at (map views.top_piece)) result (spec.every parser.now.tokens.now (R.leaves parser.now.reader) depth sorts.Top from) }
{
    let mut found = Items::new(parser.alloc);
    let mut place = from;
    for _turn in 0..parser.tokens.len() + 1 {
        if !begins_top(parser.tokens, place) {
            return Ok((found, place));
        }
        let (top, to) = read_top(parser, depth, place)?;
        found.push(top)?;
        place = to;
    }
    Err(Stop::Absent)
}
