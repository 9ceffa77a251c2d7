//! The parser: what stands at a place, and parts that may stand or stand behind one another.

ghost use Rattle.std.specs.Prelude.{◌≡◌, ◌<◌, ◌+◌, ◌^◌, ◌∷◌, IfOk, Bool, ℕ, List, Some, length, map, option_map, slice_get};
ghost use Rattle.std.specs.Option.{is_some};
ghost use Rattle.stan_model_grammar.specs.declared.token.TokenKind.{TokenKind};
ghost use Rattle.stan_model_grammar.specs.Strata as strata;
ghost use Rattle.stan_model_statements.specs.Kinds.{has, same_kind};
ghost use Rattle.stan_model_statements.specs.Symbols as sorts;
ghost use Rattle.stan_places.specs.Gives.{Gives, at};
ghost use Rattle.stan_stmt_parts.specs.Gives as spec;
ghost use Rattle.stan_stmt_parts.specs.Gives.{Leaves};
ghost use Rattle.stan_stmt_parts.specs.Parse.{Piece};
ghost use Rattle.stan_stmt_rules.specs.Ahead.{pick_at};
ghost use Rattle.stan_stmt_rules.specs.Parse as rules;

use crate::depth::Depth;
use sqlite_items::Items;
use stan_model_grammar::token::{Token, TokenKind};
use stan_places::places::{kind_at, next_kind, token_at};
use stan_places::stop::Stop;
use stan_stmt_ahead::kinds::is_modifier;
use stan_stmt_trees::{Stmt, Value};
use std::alloc::{AllocError, Global};

/// What reads expressions, with the bodies of their closures, and statements that are parts of others.
pub trait Reader {
    ghost leaves: { Self → Leaves };

    /// It may be called with less room than this.
    ghost room: { Self → ℕ };

    /// Whether it may be called.
    ghost ready: { Self → Type 0 };

    /// Whether it is the word `strict_types`.
    fn is_strict_types(&self, token: Token) -> bool
        ensures { result ≡ (leaves self.now).named token };

    /// The expression there, which may be a pattern or not.
    fn value(
        &self,
        alloc: Global,
        tokens: &[Token],
        depth: Depth,
        pattern: bool,
        place: usize,
    ) -> Result<(Value, usize), Stop>
        requires few { length tokens.now < 2 ^ 32 }
        requires room { depth.room < room self.now }
        requires ready { ready self.now }
        ensures { Gives (at spec.putting) result ((leaves self.now).value tokens.now depth.room depth.levels pattern place) };

    /// The kind of the token behind the expression there, which may be a pattern.
    fn behind(
        &self,
        alloc: Global,
        tokens: &[Token],
        depth: Depth,
        place: usize,
    ) -> Result<TokenKind, Stop>
        requires few { length tokens.now < 2 ^ 32 }
        requires ready { ready self.now }
        ensures { Gives (λ x. x) result (Some (rules.behind tokens.now depth.levels place)) };

    fn statement(
        &self,
        alloc: Global,
        tokens: &[Token],
        depth: Depth,
        place: usize,
    ) -> Result<(Stmt, usize), Stop>
        requires few { length tokens.now < 2 ^ 32 }
        requires room { depth.room < room self.now }
        requires ready { ready self.now }
        ensures { Gives (at spec.statement_piece) result (spec.part tokens.now (leaves self.now) depth sorts.Statement place) };
}

/// Words of some kinds.
pub trait Words {
    ghost kinds: { List TokenKind };

    fn include(kind: TokenKind) -> bool
        ensures { result ≡ has kinds kind };
}

/// The tokens that are read, and what reads expressions and statements.
#[derive(Drop)]
pub struct Parser<'t, R> {
    pub alloc: Global,
    pub tokens: &'t [Token],
    pub reader: R,
    ghost few: { length tokens.now < 2 ^ 32 },
}

/// What can stand as a part of a production.
pub trait Part {
    /// What is read.
    type Tree: Drop;

    ghost sort: { sorts.Sort };

    ghost view: { Self.Tree → Piece };

    /// Whether one begins at a place.
    fn begins(tokens: &[Token], place: usize) -> bool
        ensures { (behind : ℕ → TokenKind) → result ≡ is_some (pick_at tokens.now behind sort place) };

    fn read<R: Reader>(
        parser: &Parser<'_, R>,
        depth: Depth,
        place: usize,
    ) -> Result<(Self::Tree, usize), Stop>
        requires room { depth.room < R.room parser.now.reader }
        requires ready { R.ready parser.now.reader }
        ensures { Gives (at view) result (spec.part parser.now.tokens.now (R.leaves parser.now.reader) depth sort place) };
}

impl<'t, R: Reader> Parser<'t, R> {
    /// The place behind a token of this kind.
    #[tactic(auto, unfolding(stan_stmt_rules::specs::Parse::after, stan_model_statements::specs::Kinds::same_kind))]
    pub fn expect(&self, kind: TokenKind, place: usize) -> Result<usize, Stop>
        ensures { Gives (λ x. x) result (rules.after self.now.tokens.now kind place) }
    {
        let Some(token) = token_at(self.tokens, place) else {
            return Err(Stop::Absent);
        };
        if token.kind == kind {
            Ok(place + 1)
        } else {
            Err(Stop::Absent)
        }
    }

    /// The token of this kind with which something begins, and the place behind it.
    #[tactic(auto, unfolding(stan_stmt_rules::specs::Parse::after, stan_model_statements::specs::Kinds::same_kind))]
    pub fn keyword(&self, kind: TokenKind, place: usize) -> Result<(Token, usize), Stop>
        ensures behind { Gives (λ x. x.1) result (rules.after self.now.tokens.now kind place) }
        ensures token { IfOk result (λ x. slice_get self.now.tokens.now place ≡ Some x.0) }
    {
        let Some(token) = token_at(self.tokens, place) else {
            return Err(Stop::Absent);
        };
        if token.kind == kind {
            Ok((token, place + 1))
        } else {
            Err(Stop::Absent)
        }
    }

    /// A word of one of these kinds, and the place behind it.
    #[tactic(auto, unfolding(stan_stmt_rules::specs::Parse::word_at))]
    pub fn word<W: Words>(&self, place: usize) -> Result<(Token, usize), Stop>
        ensures token { Gives (λ x. x.0) result (rules.word_at self.now.tokens.now W.kinds place) }
        ensures behind { IfOk result (λ x. x.1 ≡ place + 1) }
    {
        let Some(token) = token_at(self.tokens, place) else {
            return Err(Stop::Absent);
        };
        if W::include(token.kind) {
            Ok((token, place + 1))
        } else {
            Err(Stop::Absent)
        }
    }

    /// A modifier of a member, behind which no `|` stands.
    #[tactic(auto, unfolding(stan_stmt_rules::specs::Parse::checked_at, stan_model_statements::specs::Kinds::same_kind))]
    pub fn modifier(&self, place: usize) -> Result<(Token, usize), Stop>
        ensures token { Gives (λ x. x.0) result (rules.checked_at self.now.tokens.now (R.leaves self.now.reader).named sorts.modifier place) }
        ensures behind { IfOk result (λ x. x.1 ≡ place + 1) }
    {
        let Some(token) = token_at(self.tokens, place) else {
            return Err(Stop::Absent);
        };
        if is_modifier(token.kind) && next_kind(self.tokens, place) != TokenKind::Bar {
            Ok((token, place + 1))
        } else {
            Err(Stop::Absent)
        }
    }

    /// The word `strict_types`.
    #[tactic(auto, unfolding(stan_stmt_rules::specs::Parse::checked_at, stan_model_statements::specs::Kinds::same_kind))]
    pub fn strict_types(&self, place: usize) -> Result<(Token, usize), Stop>
        ensures token { Gives (λ x. x.0) result (rules.checked_at self.now.tokens.now (R.leaves self.now.reader).named sorts.strict_types place) }
        ensures behind { IfOk result (λ x. x.1 ≡ place + 1) }
    {
        let Some(token) = token_at(self.tokens, place) else {
            return Err(Stop::Absent);
        };
        if token.kind == TokenKind::Identifier && self.reader.is_strict_types(token) {
            Ok((token, place + 1))
        } else {
            Err(Stop::Absent)
        }
    }

    /// An expression.
    pub fn value(&self, depth: Depth, pattern: bool, place: usize) -> Result<(Value, usize), Stop>
        requires room { depth.room < R.room self.now.reader }
        requires ready { R.ready self.now.reader }
        ensures { Gives (at spec.putting) result ((R.leaves self.now.reader).value self.now.tokens.now depth.room depth.levels pattern place) }
    {
        self.reader
            .value(self.alloc, self.tokens, depth, pattern, place)
    }

    /// The kind of the token behind the expression there, which may be a pattern.
    pub fn behind(&self, depth: Depth, place: usize) -> Result<TokenKind, Stop>
        requires { R.ready self.now.reader }
        ensures { Gives (λ x. x) result (Some (rules.behind self.now.tokens.now depth.levels place)) }
    {
        self.reader.behind(self.alloc, self.tokens, depth, place)
    }

    /// A statement, as a part of another.
    pub fn statement(&self, depth: Depth, place: usize) -> Result<(Stmt, usize), Stop>
        requires room { depth.room < R.room self.now.reader }
        requires ready { R.ready self.now.reader }
        ensures { Gives (at spec.statement_piece) result (spec.part self.now.tokens.now (R.leaves self.now.reader) depth sorts.Statement place) }
    {
        self.reader.statement(self.alloc, self.tokens, depth, place)
    }

    /// Parts one behind the other, as many as there are.
    pub fn all<T: Part>(&self, depth: Depth, from: usize) -> Result<(Items<T::Tree>, usize), Stop>
        requires room { depth.room < R.room self.now.reader }
        requires ready { R.ready self.now.reader }
        ensures { Gives (at (map T.view)) result (spec.every self.now.tokens.now (R.leaves self.now.reader) depth T.sort from) }
    {
        let mut found = Items::new(self.alloc);
        let mut place = from;
        for _turn in 0..self.tokens.len() + 1 {
            if !T::begins(self.tokens, place) {
                return Ok((found, place));
            }
            let (part, to) = T::read(self, depth, place)?;
            found.push(part)?;
            place = to;
        }
        Err(Stop::Absent)
    }

    /// A part, if one begins there.
    #[tactic(auto, unfolding(crate::specs::Gives::maybe, crate::specs::Gives::part, crate::specs::Parse::may, crate::specs::Parse::one))]
    pub fn maybe<T: Part>(
        &self,
        depth: Depth,
        place: usize,
    ) -> Result<(Option<T::Tree>, usize), Stop>
        requires room { depth.room < R.room self.now.reader }
        requires ready { R.ready self.now.reader }
        ensures { Gives (at (option_map T.view)) result (spec.maybe self.now.tokens.now (R.leaves self.now.reader) depth T.sort place) }
    {
        if T::begins(self.tokens, place) {
            let (part, to) = T::read(self, depth, place)?;
            Ok((Some(part), to))
        } else {
            Ok((None, place))
        }
    }
}

/// An item before others.
pub fn with_first<T: Drop>(alloc: Global, first: T, more: Items<T>) -> Result<Items<T>, AllocError>
    ensures { IfOk result (λ all. all ≡ first ∷ more) }
{
    let mut all = Items::new(alloc);
    all.push(first)?;
    all.append(more)?;
    Ok(all)
}

/// Whether a token of this kind stands there.
#[tactic(auto, unfolding(stan_model_statements::specs::Kinds::same_kind))]
pub fn stands(tokens: &[Token], kind: TokenKind, place: usize) -> bool
    ensures { result ≡ same_kind (strata.kind_at tokens.now place) kind }
{
    kind_at(tokens, place) == kind
}

/// The kind of the token two places on.
pub fn third_kind(tokens: &[Token], place: usize) -> TokenKind
    ensures { result ≡ strata.kind_at tokens.now (place + 2) }
{
    if place < tokens.len() {
        next_kind(tokens, place + 1)
    } else {
        TokenKind::End
    }
}
