//! The rules of the grammar, over a function that reads what stands a level deeper, so that each is proved by itself.

ghost use Rattle.std.specs.Prelude.{◌≡◌, ◌<◌, ◌^◌, false, length};
ghost use Rattle.stan_model_grammar.specs.Strata.{loosest};
ghost use Rattle.stan_places.specs.Gives.{Gives, at};
ghost use Rattle.stan_expr_items.specs.Nests.{Nests};
ghost use Rattle.stan_expr_rules.specs.Parse as parse;
ghost use Rattle.stan_expr_rules.specs.Places as spec;
ghost use Rattle.stan_syntax.specs.Tree.{tree_of};

use stan_model_grammar::token::{Token, TokenKind};
use stan_places::places::after;
use stan_places::stop::Stop;
use stan_places::strata::LOOSEST;
use stan_syntax::Expr;
use std::alloc::Global;

/// The tokens that are read, how many levels are left below, and the function that reads what stands a level deeper.
#[derive(Drop)]
pub struct Grammar<'t, F> {
    pub alloc: Global,
    pub tokens: &'t [Token],
    /// How many levels may still be opened.
    pub depth: u32,
    pub read: F,
    ghost few: { length tokens.now < 2 ^ 32 },
}

impl<'t, F: Fn(Global, &[Token], u32, bool, u8, usize) -> Result<(Expr, usize), Stop>> Grammar<
    't,
    F,
> {
    /// What stands a level deeper, at this stratum.
    #[tactic(auto)]
    pub fn below(&self, pattern: bool, stratum: u8, place: usize) -> Result<(Expr, usize), Stop>
        requires { Nests self.now.depth (F.pre self.now.read) (F.post self.now.read) }
        ensures { Gives (at tree_of) result (parse.below self.now.tokens.now self.now.depth pattern stratum place) }
    {
        (self.read)(self.alloc, self.tokens, self.depth, pattern, stratum, place)
    }

    /// An expression, a level deeper.
    #[tactic(auto)]
    pub fn expression(&self, place: usize) -> Result<(Expr, usize), Stop>
        requires { Nests self.now.depth (F.pre self.now.read) (F.post self.now.read) }
        ensures { Gives (at tree_of) result (parse.below self.now.tokens.now self.now.depth false loosest place) }
    {
        self.below(false, LOOSEST, place)
    }

    /// The place behind a token of this kind.
    #[tactic(auto)]
    pub fn expect(&self, kind: TokenKind, place: usize) -> Result<usize, Stop>
        ensures { Gives (λ x. x) result (spec.after self.now.tokens.now kind place) }
    {
        match after(self.tokens, kind, place) {
            Some(to) => Ok(to),
            None => Err(Stop::Absent),
        }
    }

    /// An expression between two tokens.
    #[tactic(auto, unfolding(stan_expr_rules::specs::Parse::enclosed))]
    pub fn enclosed(
        &self,
        opening: TokenKind,
        closing: TokenKind,
        place: usize,
    ) -> Result<(Expr, usize), Stop>
        requires { Nests self.now.depth (F.pre self.now.read) (F.post self.now.read) }
        ensures { Gives (at tree_of) result (parse.enclosed self.now.tokens.now (parse.below self.now.tokens.now self.now.depth) opening closing place) }
    {
        let from = self.expect(opening, place)?;
        let (e, to) = self.expression(from)?;
        let to = self.expect(closing, to)?;
        Ok((e, to))
    }
}
