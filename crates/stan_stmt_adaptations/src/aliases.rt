//! What stands behind `as` in a `use` of traits.

ghost use Rattle.std.specs.Prelude.{◌≡◌, ◌≤◌, option_map};
ghost use Rattle.stan_model_statements.specs.Rules as rules;
ghost use Rattle.stan_model_statements.specs.Symbols as sorts;
ghost use Rattle.stan_places.specs.Gives.{Gives, at};
ghost use Rattle.stan_stmt_adaptations.specs.Views as views;
ghost use Rattle.stan_stmt_parts.specs.Gives as spec;
ghost use Rattle.stan_stmt_rules.specs.Ahead as ahead;

use stan_model_grammar::token::{Token, TokenKind};
use stan_places::places::{kind_at, next_kind};
use stan_places::stop::Stop;
use stan_stmt_ahead::kinds::{is_alias_name, is_visibility};
use stan_stmt_parts::depth::{Depth, enter};
use stan_stmt_parts::parser::{Parser, Part, Reader};
use stan_stmt_parts::words::{AliasNames, MemberNames, Visibilities};

/// What a method of a trait becomes, one variant a production.
#[derive(Clone, Copy, Debug)]
pub enum Renamed {
    /// A visibility alone.
    Visibility(Token),
    /// A visibility and a name.
    Visible(Token, Token),
    /// A name alone.
    Plain(Token),
}

impl Renamed {
    /// `public`, `protected` or `private`, if it stands.
    pub fn visibility(self) -> Option<Token>
        ensures { result ≡ views.visibility_of self }
    {
        match self {
            Renamed::Visibility(visibility) => Some(visibility),
            Renamed::Visible(visibility, _) => Some(visibility),
            Renamed::Plain(_) => None,
        }
    }

    /// The new name, if it stands.
    pub fn name(self) -> Option<Token>
        ensures { result ≡ views.name_of self }
    {
        match self {
            Renamed::Visibility(_) => None,
            Renamed::Visible(_, name) => Some(name),
            Renamed::Plain(name) => Some(name),
        }
    }
}

/// The productions of aliases.
#[derive(Clone, Copy, Debug)]
pub enum AliasRule {
    Visibility,
    Visible,
    Plain,
}

/// The production of an alias, by the kinds of its next two tokens. A visibility before `;` is no name.
#[tactic(auto, unfolding(stan_model_statements::specs::Kinds::same_kind))]
pub fn pick_alias(first: TokenKind, second: TokenKind) -> Option<AliasRule>
    ensures { option_map views.alias_rule result ≡ ahead.alias_by first second }
{
    if is_visibility(first) {
        if second == TokenKind::Semicolon {
            Some(AliasRule::Visibility)
        } else {
            Some(AliasRule::Visible)
        }
    } else if is_alias_name(first) {
        Some(AliasRule::Plain)
    } else {
        None
    }
}

/// A visibility, a name, or both.
pub struct Alias;

impl Part for Alias {
    type Tree = Renamed;

    ghost sort = { sorts.Alias };

    ghost view = { views.alias_piece };

    #[tactic(auto, unfolding(stan_stmt_rules::specs::Ahead::pick_at))]
    fn begins(tokens: &[Token], place: usize) -> bool {
        pick_alias(kind_at(tokens, place), next_kind(tokens, place)).is_some()
    }

    #[tactic(auto, using(stan_stmt_parts::proofs::Turns::part_picked), unfolding(stan_stmt_rules::specs::Ahead::pick_at))]
    fn read<R: Reader>(
        parser: &Parser<'_, R>,
        depth: Depth,
        place: usize,
    ) -> Result<(Renamed, usize), Stop> {
        let first = kind_at(parser.tokens, place);
        match pick_alias(first, next_kind(parser.tokens, place)) {
            Some(AliasRule::Visibility) => alias_visibility(parser, depth, place),
            Some(AliasRule::Visible) => visible_alias(parser, depth, place),
            Some(AliasRule::Plain) => plain_alias(parser, depth, place),
            None => Err(Stop::Absent),
        }
    }
}

// A visibility alone.
#[tactic(auto, unfolding(stan_stmt_parts::specs::Gives::entered, stan_stmt_parts::specs::Gives::inside, stan_stmt_parts::specs::Parse::first_at))]
fn alias_visibility<R: Reader>(
    parser: &Parser<'_, R>,
    depth: Depth,
    place: usize,
) -> Result<(Renamed, usize), Stop>
    ensures { Gives (at views.alias_piece) result (spec.entered parser.now.tokens.now (R.leaves parser.now.reader) depth rules.alias_visibility place) }
{
    let _depth = enter(depth, 0)?;
    let (visibility, to) = parser.word::<Visibilities>(place)?;
    let to = parser.expect(TokenKind::Semicolon, to)?;
    Ok((Renamed::Visibility(visibility), to))
}

// A visibility and a name.
#[tactic(auto, unfolding(stan_stmt_parts::specs::Gives::entered, stan_stmt_parts::specs::Gives::inside, stan_stmt_parts::specs::Parse::first_at))]
fn visible_alias<R: Reader>(
    parser: &Parser<'_, R>,
    depth: Depth,
    place: usize,
) -> Result<(Renamed, usize), Stop>
    ensures { Gives (at views.alias_piece) result (spec.entered parser.now.tokens.now (R.leaves parser.now.reader) depth rules.visible_alias place) }
{
    let _depth = enter(depth, 0)?;
    let (visibility, to) = parser.word::<Visibilities>(place)?;
    let (name, to) = parser.word::<MemberNames>(to)?;
    let to = parser.expect(TokenKind::Semicolon, to)?;
    Ok((Renamed::Visible(visibility, name), to))
}

// A name alone.
#[tactic(auto, unfolding(stan_stmt_parts::specs::Gives::entered, stan_stmt_parts::specs::Gives::inside, stan_stmt_parts::specs::Parse::first_at))]
fn plain_alias<R: Reader>(
    parser: &Parser<'_, R>,
    depth: Depth,
    place: usize,
) -> Result<(Renamed, usize), Stop>
    ensures { Gives (at views.alias_piece) result (spec.entered parser.now.tokens.now (R.leaves parser.now.reader) depth rules.plain_alias place) }
{
    let _depth = enter(depth, 0)?;
    let (name, to) = parser.word::<AliasNames>(place)?;
    let to = parser.expect(TokenKind::Semicolon, to)?;
    Ok((Renamed::Plain(name), to))
}
