//! The arguments of a call.

ghost use Rattle.std.specs.Prelude.{option_map};
ghost use Rattle.stan_model_grammar.specs.Trees.{arguments};
ghost use Rattle.stan_places.specs.Gives.{Gives, at};
ghost use Rattle.stan_expr_items.specs.Nests.{Nests};
ghost use Rattle.stan_expr_rules.specs.Parse as parse;
ghost use Rattle.stan_model_grammar.specs.TreeLists.{may_be_called};
ghost use Rattle.stan_syntax.specs.Tree.{arguments_of};

use crate::grammar::Grammar;
use stan_model_grammar::token::{Token, TokenKind};
use stan_places::places::after;
use stan_places::stop::Stop;
use stan_syntax::{Arguments, Expr};
use std::alloc::Global;

impl<'t, F: Fn(Global, &[Token], u32, bool, u8, usize) -> Result<(Expr, usize), Stop>> Grammar<
    't,
    F,
> {
    /// In brackets.
    #[tactic(auto, using(stan_syntax::proofs::Layers::layers), unfolding(stan_expr_rules::specs::Parse::some_arguments))]
    fn some_arguments(&self, place: usize) -> Result<(Arguments, usize), Stop>
        requires { Nests self.now.depth (F.pre self.now.read) (F.post self.now.read) }
        ensures { Gives (at (λ x. arguments (arguments_of x))) result (parse.some_arguments self.now.tokens.now (parse.below self.now.tokens.now self.now.depth) place) }
    {
        let ((list, comma), to) = self.fenced(
            TokenKind::LeftParenthesis,
            TokenKind::RightParenthesis,
            place,
        )?;
        Ok((Arguments { list, comma }, to))
    }

    /// Arguments, if a bracket comes next.
    #[tactic(auto, using(stan_syntax::proofs::Layers::layers), unfolding(stan_expr_rules::specs::Parse::may_be_called))]
    pub fn may_be_called(&self, place: usize) -> Result<(Option<Arguments>, usize), Stop>
        requires { Nests self.now.depth (F.pre self.now.read) (F.post self.now.read) }
        ensures { Gives (at (λ x. may_be_called (option_map arguments_of x))) result (parse.may_be_called self.now.tokens.now (parse.below self.now.tokens.now self.now.depth) place) }
    {
        match after(self.tokens, TokenKind::LeftParenthesis, place) {
            None => Ok((None, place)),
            Some(_) => {
                let (arguments, to) = self.some_arguments(place)?;
                Ok((Some(arguments), to))
            }
        }
    }
}
