//! The parser: words and marks, parts that may stand, and parts that stand behind one another.

ghost use Rattle.std.specs.Prelude.{◌≡◌, ◌<◌, ◌≤◌, ◌+◌, ◌^◌, ◌∷◌, IfOk, length, map, option_map};
ghost use Rattle.stan_model_doc.specs.Symbols as sorts;
ghost use Rattle.stan_places.specs.Gives.{Gives, at};
ghost use Rattle.stan_doc_descent.specs.Parse as parse;
ghost use Rattle.stan_doc_descent.specs.Parse.{Piece};
ghost use Rattle.stan_doc_trees.specs.Tree.{written_of, unary_of};
ghost use Rattle.stan_doc_parts.specs.Gives as spec;
ghost use Rattle.stan_doc_parts.specs.Nests.{Nests};

use crate::places::token_at;
use crate::words::Words;
use sqlite_items::Items;
use stan_doc_trees::{Unary, Written};
use stan_model_doc::token::{DocKind, DocToken};
use stan_places::stop::Stop;
use std::alloc::{AllocError, Global};

/// The tokens that are read, how many levels are left below, and the functions that read types a level deeper.
#[derive(Drop)]
pub struct Parser<'t, W, U> {
    pub alloc: Global,
    pub tokens: &'t [DocToken],
    /// The most levels with which types may be read.
    pub levels: usize,
    pub read_written: W,
    pub read_unary: U,
    ghost few: { length tokens.now < 2 ^ 32 },
}

/// What can stand as a part of a production.
pub trait Part {
    /// What is read.
    type Tree: Drop;

    ghost sort: { sorts.Sort };

    ghost view: { Self.Tree → Piece };

    fn read<
        W: Fn(Global, &[DocToken], usize, usize) -> Result<(Written, usize), Stop>,
        U: Fn(Global, &[DocToken], usize, usize) -> Result<(Unary, usize), Stop>,
    >(parser: &Parser<'_, W, U>, levels: usize, place: usize) -> Result<(Self::Tree, usize), Stop>
        requires nests { Nests parser.now.levels (W.pre parser.now.read_written) (W.post parser.now.read_written) (U.pre parser.now.read_unary) (U.post parser.now.read_unary) }
        requires room { levels ≤ parser.now.levels }
        ensures { Gives (at view) result (spec.part parser.now.tokens.now levels sort place) };
}

impl<
    't,
    W: Fn(Global, &[DocToken], usize, usize) -> Result<(Written, usize), Stop>,
    U: Fn(Global, &[DocToken], usize, usize) -> Result<(Unary, usize), Stop>,
> Parser<'t, W, U> {
    /// The place behind a token of this kind.
    #[tactic(auto, unfolding(stan_doc_descent::specs::Parse::after, stan_model_doc::specs::Tokens::same_kind))]
    pub fn expect(&self, kind: DocKind, place: usize) -> Result<usize, Stop>
        ensures { Gives (λ x. x) result (parse.after self.now.tokens.now kind place) }
    {
        let Some(token) = token_at(self.tokens, place) else {
            return Err(Stop::Absent);
        };
        if token.kind == kind {
            Ok(place + 1)
        } else {
            Err(Stop::Absent)
        }
    }

    /// A word of one of these kinds, and the place behind it.
    #[tactic(auto, unfolding(stan_doc_descent::specs::Parse::word_at))]
    pub fn word<V: Words>(&self, place: usize) -> Result<(DocToken, usize), Stop>
        ensures token { Gives (λ x. x.0) result (parse.word_at self.now.tokens.now V.kinds place) }
        ensures behind { IfOk result (λ x. x.1 ≡ place + 1) }
    {
        let Some(token) = token_at(self.tokens, place) else {
            return Err(Stop::Absent);
        };
        if V::include(token.kind) {
            Ok((token, place + 1))
        } else {
            Err(Stop::Absent)
        }
    }

    /// A type.
    #[tactic(auto)]
    pub fn written(&self, levels: usize, place: usize) -> Result<(Written, usize), Stop>
        requires nests { Nests self.now.levels (W.pre self.now.read_written) (W.post self.now.read_written) (U.pre self.now.read_unary) (U.post self.now.read_unary) }
        requires room { levels ≤ self.now.levels }
        ensures { Gives (at written_of) result (spec.part self.now.tokens.now levels sorts.Written place) }
    {
        (self.read_written)(self.alloc, self.tokens, levels, place)
    }

    /// A type without `|` and `&`.
    #[tactic(auto)]
    pub fn unary(&self, levels: usize, place: usize) -> Result<(Unary, usize), Stop>
        requires nests { Nests self.now.levels (W.pre self.now.read_written) (W.post self.now.read_written) (U.pre self.now.read_unary) (U.post self.now.read_unary) }
        requires room { levels ≤ self.now.levels }
        ensures { Gives (at unary_of) result (spec.part self.now.tokens.now levels sorts.Unary place) }
    {
        (self.read_unary)(self.alloc, self.tokens, levels, place)
    }

    /// Parts one behind the other, as many as there are.
    pub fn all<T: Part>(&self, levels: usize, from: usize) -> Result<(Items<T::Tree>, usize), Stop>
        requires nests { Nests self.now.levels (W.pre self.now.read_written) (W.post self.now.read_written) (U.pre self.now.read_unary) (U.post self.now.read_unary) }
        requires room { levels ≤ self.now.levels }
        ensures { Gives (at (map T.view)) result (spec.every self.now.tokens.now levels T.sort from) }
    {
        let mut found = Items::new(self.alloc);
        let mut place = from;
        for _turn in 0..self.tokens.len() + 1 {
            match T::read(self, levels, place) {
                Ok((part, to)) => {
                    found.push(part)?;
                    place = to;
                }
                Err(Stop::Absent) => return Ok((found, place)),
                Err(Stop::Memory) => return Err(Stop::Memory),
            }
        }
        Ok((found, place))
    }

    /// A part, if one is read there.
    #[tactic(auto, unfolding(crate::specs::Gives::maybe))]
    pub fn maybe<T: Part>(
        &self,
        levels: usize,
        place: usize,
    ) -> Result<(Option<T::Tree>, usize), Stop>
        requires nests { Nests self.now.levels (W.pre self.now.read_written) (W.post self.now.read_written) (U.pre self.now.read_unary) (U.post self.now.read_unary) }
        requires room { levels ≤ self.now.levels }
        ensures { Gives (at (option_map T.view)) result (spec.maybe self.now.tokens.now levels T.sort place) }
    {
        match T::read(self, levels, place) {
            Ok((part, to)) => Ok((Some(part), to)),
            Err(Stop::Absent) => Ok((None, place)),
            Err(Stop::Memory) => Err(Stop::Memory),
        }
    }
}

/// An item before others.
pub fn with_first<T: Drop>(alloc: Global, first: T, more: Items<T>) -> Result<Items<T>, AllocError>
    ensures { IfOk result (λ all. all ≡ first ∷ more) }
{
    let mut all = Items::new(alloc);
    all.push(first)?;
    all.append(more)?;
    Ok(all)
}
