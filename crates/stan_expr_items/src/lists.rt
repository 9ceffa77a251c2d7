//! Lists with `,` between their items, and perhaps one behind the last.

ghost use Rattle.std.specs.Prelude.{◌≡◌, ℕ, List, Bool, map, true, false};
ghost use Rattle.stan_model_grammar.specs.declared.token.Token.{Token};
ghost use Rattle.stan_model_grammar.specs.declared.token.TokenKind.TheVariants as kinds;
ghost use Rattle.stan_model_grammar.specs.Trees.{Tree, Item};
ghost use Rattle.stan_places.specs.Gives.{Gives, at, turn};
ghost use Rattle.stan_expr_items.specs.Nests.{Nests};
ghost use Rattle.stan_expr_rules.specs.Parse.{Read};
ghost use Rattle.stan_expr_rules.specs.Parse as parse;
ghost use Rattle.stan_model_grammar.specs.TreeLists.{listed};

use crate::grammar::Grammar;
use sqlite_items::Items;
use stan_model_grammar::token::{Token, TokenKind};
use stan_places::places::{after, may};
use stan_places::stop::Stop;
use stan_syntax::Expr;
use std::alloc::Global;

/// What stands in such a list.
pub trait Listed: Drop + Sized {
    ghost item: { Self → Item };

    ghost rule: { List Token → (Bool → ℕ → ℕ → Read Tree) → ℕ → Read Item };

    fn read<F: Fn(Global, &[Token], u32, bool, u8, usize) -> Result<(Expr, usize), Stop>>(
        grammar: &Grammar<'_, F>,
        place: usize,
    ) -> Result<(Self, usize), Stop>
        requires { Nests grammar.now.depth (F.pre grammar.now.read) (F.post grammar.now.read) }
        ensures { Gives (at item) result (rule grammar.now.tokens.now (parse.below grammar.now.tokens.now grammar.now.depth) place) };
}

impl<'t, F: Fn(Global, &[Token], u32, bool, u8, usize) -> Result<(Expr, usize), Stop>> Grammar<
    't,
    F,
> {
    /// A further item, if a `,` comes next and not the closing token behind it.
    #[tactic(auto, unfolding(stan_expr_rules::specs::Parse::further_item, stan_expr_rules::specs::Parse::further_after))]
    fn further<T: Listed>(
        &self,
        closing: TokenKind,
        place: usize,
    ) -> Result<Option<(T, usize)>, Stop>
        requires { Nests self.now.depth (F.pre self.now.read) (F.post self.now.read) }
        ensures { Gives (turn T.item) result (parse.further_item self.now.tokens.now (parse.below self.now.tokens.now self.now.depth) (T.rule self.now.tokens.now (parse.below self.now.tokens.now self.now.depth)) closing place) }
    {
        let Some(to) = after(self.tokens, TokenKind::Comma, place) else {
            return Ok(None);
        };
        match after(self.tokens, closing, to) {
            Some(_) => Ok(None),
            None => Ok(Some(T::read(self, to)?)),
        }
    }

    #[tactic(auto, unfolding(stan_expr_rules::specs::Parse::more_items))]
    fn more_items<T: Listed>(
        &self,
        closing: TokenKind,
        first: T,
        from: usize,
    ) -> Result<(Items<T>, usize), Stop>
        requires { Nests self.now.depth (F.pre self.now.read) (F.post self.now.read) }
        ensures { Gives (at (map T.item)) result (parse.more_items self.now.tokens.now (parse.below self.now.tokens.now self.now.depth) (T.rule self.now.tokens.now (parse.below self.now.tokens.now self.now.depth)) closing (T.item first) from) }
    {
        let mut found = Items::new(self.alloc);
        found.push(first)?;
        let mut place = from;
        for _turn in 0..self.tokens.len() + 1 {
            match self.further(closing, place)? {
                None => return Ok((found, place)),
                Some((item, to)) => {
                    found.push(item)?;
                    place = to;
                }
            }
        }
        Err(Stop::Absent)
    }

    /// One item at least, and whether a `,` stands behind the last.
    #[tactic(auto, unfolding(stan_expr_rules::specs::Parse::some_items))]
    pub fn some_items<T: Listed>(
        &self,
        closing: TokenKind,
        place: usize,
    ) -> Result<((Items<T>, bool), usize), Stop>
        requires { Nests self.now.depth (F.pre self.now.read) (F.post self.now.read) }
        ensures { Gives (at (λ x. listed (map T.item x.0) x.1)) result (parse.some_items self.now.tokens.now (parse.below self.now.tokens.now self.now.depth) (T.rule self.now.tokens.now (parse.below self.now.tokens.now self.now.depth)) closing place) }
    {
        let (first, to) = T::read(self, place)?;
        let (list, to) = self.more_items(closing, first, to)?;
        let (comma, to) = may(self.tokens, TokenKind::Comma, to);
        Ok(((list, comma), to))
    }

    #[tactic(auto, unfolding(stan_expr_rules::specs::Parse::list_items))]
    fn list_items<T: Listed>(
        &self,
        closing: TokenKind,
        place: usize,
    ) -> Result<((Items<T>, bool), usize), Stop>
        requires { Nests self.now.depth (F.pre self.now.read) (F.post self.now.read) }
        ensures { Gives (at (λ x. listed (map T.item x.0) x.1)) result (parse.list_items self.now.tokens.now (parse.below self.now.tokens.now self.now.depth) (T.rule self.now.tokens.now (parse.below self.now.tokens.now self.now.depth)) closing place) }
    {
        match after(self.tokens, closing, place) {
            Some(_) => Ok(((Items::new(self.alloc), false), place)),
            None => self.some_items(closing, place),
        }
    }

    /// A list between two tokens.
    #[tactic(auto, unfolding(stan_expr_rules::specs::Parse::fenced))]
    pub fn fenced<T: Listed>(
        &self,
        opening: TokenKind,
        closing: TokenKind,
        place: usize,
    ) -> Result<((Items<T>, bool), usize), Stop>
        requires { Nests self.now.depth (F.pre self.now.read) (F.post self.now.read) }
        ensures { Gives (at (λ x. listed (map T.item x.0) x.1)) result (parse.fenced self.now.tokens.now (parse.below self.now.tokens.now self.now.depth) (T.rule self.now.tokens.now (parse.below self.now.tokens.now self.now.depth)) opening closing place) }
    {
        let from = self.expect(opening, place)?;
        let (list, to) = self.list_items(closing, from)?;
        let to = self.expect(closing, to)?;
        Ok((list, to))
    }

    /// A list of one item at least, in round brackets.
    #[tactic(auto, unfolding(stan_expr_rules::specs::Parse::fenced_some))]
    pub fn fenced_some<T: Listed>(&self, place: usize) -> Result<((Items<T>, bool), usize), Stop>
        requires { Nests self.now.depth (F.pre self.now.read) (F.post self.now.read) }
        ensures { Gives (at (λ x. listed (map T.item x.0) x.1)) result (parse.fenced_some self.now.tokens.now (parse.below self.now.tokens.now self.now.depth) (T.rule self.now.tokens.now (parse.below self.now.tokens.now self.now.depth)) place) }
    {
        let from = self.expect(TokenKind::LeftParenthesis, place)?;
        let (list, to) = self.some_items(TokenKind::RightParenthesis, from)?;
        let to = self.expect(TokenKind::RightParenthesis, to)?;
        Ok((list, to))
    }
}
