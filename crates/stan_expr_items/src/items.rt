//! What stands in lists: arguments, elements, parameters, captured variables, arms and conditions.

ghost use Rattle.std.specs.Prelude.{◌≡◌, map, option_map};
ghost use Rattle.stan_model_grammar.specs.Trees.{Captured, Positional};
ghost use Rattle.stan_places.specs.Gives.{Gives, at};
ghost use Rattle.stan_expr_items.specs.Nests.{Nests};
ghost use Rattle.stan_expr_rules.specs.Parse as parse;
ghost use Rattle.stan_model_grammar.specs.TreeLists.{default_of, listed};
ghost use Rattle.stan_syntax.specs.Tree.{tree_of, argument_of, element_of, parameter_of, arm_of, may_type};

use crate::grammar::Grammar;
use crate::lists::Listed;
use sqlite_items::{Boxed, Items};
use stan_model_grammar::operators::Visibility;
use stan_model_grammar::token::{Token, TokenKind};
use stan_places::places::{after, after_next, may, token_at};
use stan_places::stop::Stop;
use stan_places::strata::{LOOSEST, names_argument};
use stan_places::types::{may_type, visibility_at};
use stan_syntax::{Argument, Arm, Element, Expr, Parameter, TypeTree, is_pattern};
use std::alloc::Global;

impl<'t, F: Fn(Global, &[Token], u32, bool, u8, usize) -> Result<(Expr, usize), Stop>> Grammar<
    't,
    F,
> {
    /// At a name with `:` behind it, with the value from a place on.
    #[tactic(auto, using(stan_syntax::proofs::Layers::layers), unfolding(stan_expr_rules::specs::Parse::named, stan_expr_rules::specs::Parse::named_with))]
    fn named_argument(&self, place: usize, from: usize) -> Result<(Argument, usize), Stop>
        requires { Nests self.now.depth (F.pre self.now.read) (F.post self.now.read) }
        ensures { Gives (at argument_of) result (parse.named self.now.tokens.now (parse.below self.now.tokens.now self.now.depth) place from) }
    {
        let Some(name) = token_at(self.tokens, place) else {
            return Err(Stop::Absent);
        };
        if names_argument(name.kind) {
            let (e, to) = self.expression(from)?;
            Ok((Argument::Named(name, e), to))
        } else {
            Err(Stop::Absent)
        }
    }

    #[tactic(auto, using(stan_syntax::proofs::Layers::layers), unfolding(stan_expr_rules::specs::Parse::unspread, stan_expr_rules::specs::Parse::positional))]
    fn unspread_argument(&self, place: usize) -> Result<(Argument, usize), Stop>
        requires { Nests self.now.depth (F.pre self.now.read) (F.post self.now.read) }
        ensures { Gives (at argument_of) result (parse.unspread self.now.tokens.now (parse.below self.now.tokens.now self.now.depth) place) }
    {
        if let Some(from) = after_next(self.tokens, TokenKind::Colon, place) {
            return self.named_argument(place, from);
        }
        let (e, to) = self.expression(place)?;
        Ok((Argument::Positional(e), to))
    }

    #[tactic(auto, using(stan_syntax::proofs::Layers::layers), unfolding(stan_expr_rules::specs::Parse::argument_at, stan_expr_rules::specs::Parse::spread))]
    fn argument(&self, place: usize) -> Result<(Argument, usize), Stop>
        requires { Nests self.now.depth (F.pre self.now.read) (F.post self.now.read) }
        ensures { Gives (at argument_of) result (parse.argument_at self.now.tokens.now (parse.below self.now.tokens.now self.now.depth) place) }
    {
        match after(self.tokens, TokenKind::Ellipsis, place) {
            None => self.unspread_argument(place),
            Some(to) => {
                let (e, to) = self.expression(to)?;
                Ok((Argument::Spread(e), to))
            }
        }
    }

    /// Behind the `=>` of a key.
    #[tactic(auto, using(stan_syntax::proofs::Layers::layers), unfolding(stan_expr_rules::specs::Parse::keyed, stan_expr_rules::specs::Parse::keyed_with))]
    fn keyed(&self, key: Expr, place: usize) -> Result<(Element, usize), Stop>
        requires { Nests self.now.depth (F.pre self.now.read) (F.post self.now.read) }
        ensures { Gives (at element_of) result (parse.keyed self.now.tokens.now (parse.below self.now.tokens.now self.now.depth) (tree_of key) place) }
    {
        if is_pattern(&key) {
            return Err(Stop::Absent);
        }
        let (by_reference, to) = may(self.tokens, TokenKind::Ampersand, place);
        let (value, to) = self.below(true, LOOSEST, to)?;
        let element = Element::Keyed {
            key,
            by_reference,
            value,
        };
        Ok((element, to))
    }

    /// A value, or a key with one.
    #[tactic(auto, using(stan_syntax::proofs::Layers::layers), unfolding(stan_expr_rules::specs::Parse::value))]
    fn value(&self, place: usize) -> Result<(Element, usize), Stop>
        requires { Nests self.now.depth (F.pre self.now.read) (F.post self.now.read) }
        ensures { Gives (at element_of) result (parse.value self.now.tokens.now (parse.below self.now.tokens.now self.now.depth) place) }
    {
        let (value, to) = self.below(true, LOOSEST, place)?;
        match after(self.tokens, TokenKind::DoubleArrow, to) {
            Some(to) => self.keyed(value, to),
            None => Ok((
                Element::Value {
                    by_reference: false,
                    value,
                },
                to,
            )),
        }
    }

    #[tactic(auto, using(stan_syntax::proofs::Layers::layers), unfolding(stan_expr_rules::specs::Parse::referenced))]
    fn referenced(&self, place: usize) -> Result<(Element, usize), Stop>
        requires { Nests self.now.depth (F.pre self.now.read) (F.post self.now.read) }
        ensures { Gives (at element_of) result (parse.referenced self.now.tokens.now (parse.below self.now.tokens.now self.now.depth) place) }
    {
        let (value, to) = self.below(true, LOOSEST, place)?;
        let element = Element::Value {
            by_reference: true,
            value,
        };
        Ok((element, to))
    }

    #[tactic(auto, using(stan_syntax::proofs::Layers::layers), unfolding(stan_expr_rules::specs::Parse::unspread_element))]
    fn unspread_element(&self, place: usize) -> Result<(Element, usize), Stop>
        requires { Nests self.now.depth (F.pre self.now.read) (F.post self.now.read) }
        ensures { Gives (at element_of) result (parse.unspread_element self.now.tokens.now (parse.below self.now.tokens.now self.now.depth) place) }
    {
        match after(self.tokens, TokenKind::Ampersand, place) {
            Some(to) => self.referenced(to),
            None => self.value(place),
        }
    }

    #[tactic(auto, using(stan_syntax::proofs::Layers::layers), unfolding(stan_expr_rules::specs::Parse::element_at, stan_expr_rules::specs::Parse::spread))]
    fn element(&self, place: usize) -> Result<(Element, usize), Stop>
        requires { Nests self.now.depth (F.pre self.now.read) (F.post self.now.read) }
        ensures { Gives (at element_of) result (parse.element_at self.now.tokens.now (parse.below self.now.tokens.now self.now.depth) place) }
    {
        match after(self.tokens, TokenKind::Ellipsis, place) {
            None => self.unspread_element(place),
            Some(to) => {
                let (e, to) = self.expression(to)?;
                Ok((Element::Spread(e), to))
            }
        }
    }

    #[tactic(auto, using(stan_syntax::proofs::Layers::layers), unfolding(stan_expr_rules::specs::Parse::may_default, stan_expr_rules::specs::Parse::some_default))]
    fn may_default(&self, place: usize) -> Result<(Option<Boxed<Expr>>, usize), Stop>
        requires { Nests self.now.depth (F.pre self.now.read) (F.post self.now.read) }
        ensures { Gives (at (λ x. default_of (option_map tree_of x))) result (parse.may_default self.now.tokens.now (parse.below self.now.tokens.now self.now.depth) place) }
    {
        let Some(from) = after(self.tokens, TokenKind::Assign, place) else {
            return Ok((None, place));
        };
        let (e, to) = self.expression(from)?;
        Ok((Some(Boxed::new(self.alloc, e)?), to))
    }

    /// Behind the type.
    #[tactic(auto, using(stan_syntax::proofs::Layers::layers), unfolding(stan_expr_rules::specs::Parse::parameter_with))]
    fn parameter_with(
        &self,
        visibility: Option<Visibility>,
        declared: Option<TypeTree>,
        place: usize,
    ) -> Result<(Parameter, usize), Stop>
        requires { Nests self.now.depth (F.pre self.now.read) (F.post self.now.read) }
        ensures { Gives (at parameter_of) result (parse.parameter_with self.now.tokens.now (parse.below self.now.tokens.now self.now.depth) visibility (may_type declared) place) }
    {
        let (by_reference, to) = may(self.tokens, TokenKind::Ampersand, place);
        let (is_variadic, to) = may(self.tokens, TokenKind::Ellipsis, to);
        let Some(variable) = token_at(self.tokens, to) else {
            return Err(Stop::Absent);
        };
        let to = self.expect(TokenKind::Variable, to)?;
        let (default, to) = self.may_default(to)?;
        let parameter = Parameter {
            visibility,
            declared,
            by_reference,
            is_variadic,
            variable,
            default,
        };
        Ok((parameter, to))
    }

    #[tactic(auto, using(stan_syntax::proofs::Layers::layers), unfolding(stan_expr_rules::specs::Parse::parameter_at))]
    fn parameter(&self, place: usize) -> Result<(Parameter, usize), Stop>
        requires { Nests self.now.depth (F.pre self.now.read) (F.post self.now.read) }
        ensures { Gives (at parameter_of) result (parse.parameter_at self.now.tokens.now (parse.below self.now.tokens.now self.now.depth) place) }
    {
        let (visibility, to) = visibility_at(self.tokens, place);
        let (declared, to) = may_type(self.alloc, self.tokens, to)?;
        self.parameter_with(visibility, declared, to)
    }

    #[tactic(auto, using(stan_syntax::proofs::Layers::layers), unfolding(stan_expr_rules::specs::Parse::captured_at))]
    fn captured(&self, place: usize) -> Result<(Token, usize), Stop>
        ensures { Gives (at Captured) result (parse.captured_at self.now.tokens.now (parse.below self.now.tokens.now self.now.depth) place) }
    {
        let Some(variable) = token_at(self.tokens, place) else {
            return Err(Stop::Absent);
        };
        let to = self.expect(TokenKind::Variable, place)?;
        Ok((variable, to))
    }

    /// Behind `default`.
    #[tactic(auto, using(stan_syntax::proofs::Layers::layers), unfolding(stan_expr_rules::specs::Parse::default_arm))]
    fn default_arm(&self, place: usize) -> Result<(Arm, usize), Stop>
        requires { Nests self.now.depth (F.pre self.now.read) (F.post self.now.read) }
        ensures { Gives (at arm_of) result (parse.default_arm self.now.tokens.now (parse.below self.now.tokens.now self.now.depth) place) }
    {
        let (comma, to) = may(self.tokens, TokenKind::Comma, place);
        let from = self.expect(TokenKind::DoubleArrow, to)?;
        let (value, to) = self.expression(from)?;
        Ok((Arm::Default { comma, value }, to))
    }

    #[tactic(auto, using(stan_syntax::proofs::Layers::layers, crate::proofs::ListLemmas::positional_maps), unfolding(stan_expr_rules::specs::Parse::conditions_arm))]
    fn conditions_arm(&self, place: usize) -> Result<(Arm, usize), Stop>
        requires { Nests self.now.depth (F.pre self.now.read) (F.post self.now.read) }
        ensures { Gives (at arm_of) result (parse.conditions_arm self.now.tokens.now (parse.below self.now.tokens.now self.now.depth) place) }
    {
        let ((conditions, comma), to) = self.some_items(TokenKind::DoubleArrow, place)?;
        let from = self.expect(TokenKind::DoubleArrow, to)?;
        let (value, to) = self.expression(from)?;
        let arm = Arm::Conditions {
            conditions,
            comma,
            value,
        };
        Ok((arm, to))
    }

    #[tactic(auto, using(stan_syntax::proofs::Layers::layers), unfolding(stan_expr_rules::specs::Parse::arm_at))]
    fn arm(&self, place: usize) -> Result<(Arm, usize), Stop>
        requires { Nests self.now.depth (F.pre self.now.read) (F.post self.now.read) }
        ensures { Gives (at arm_of) result (parse.arm_at self.now.tokens.now (parse.below self.now.tokens.now self.now.depth) place) }
    {
        match after(self.tokens, TokenKind::Default, place) {
            Some(to) => self.default_arm(to),
            None => self.conditions_arm(place),
        }
    }
}

impl Listed for Argument {
    ghost item = { argument_of };

    ghost rule = { λ ts below place. parse.argument_at ts below place };

    fn read<F: Fn(Global, &[Token], u32, bool, u8, usize) -> Result<(Expr, usize), Stop>>(
        grammar: &Grammar<'_, F>,
        place: usize,
    ) -> Result<(Self, usize), Stop> {
        grammar.argument(place)
    }
}

impl Listed for Element {
    ghost item = { element_of };

    ghost rule = { λ ts below place. parse.element_at ts below place };

    fn read<F: Fn(Global, &[Token], u32, bool, u8, usize) -> Result<(Expr, usize), Stop>>(
        grammar: &Grammar<'_, F>,
        place: usize,
    ) -> Result<(Self, usize), Stop> {
        grammar.element(place)
    }
}

impl Listed for Parameter {
    ghost item = { parameter_of };

    ghost rule = { λ ts below place. parse.parameter_at ts below place };

    fn read<F: Fn(Global, &[Token], u32, bool, u8, usize) -> Result<(Expr, usize), Stop>>(
        grammar: &Grammar<'_, F>,
        place: usize,
    ) -> Result<(Self, usize), Stop> {
        grammar.parameter(place)
    }
}

impl Listed for Token {
    ghost item = { Captured };

    ghost rule = { λ ts below place. parse.captured_at ts below place };

    fn read<F: Fn(Global, &[Token], u32, bool, u8, usize) -> Result<(Expr, usize), Stop>>(
        grammar: &Grammar<'_, F>,
        place: usize,
    ) -> Result<(Self, usize), Stop> {
        grammar.captured(place)
    }
}

impl Listed for Arm {
    ghost item = { arm_of };

    ghost rule = { λ ts below place. parse.arm_at ts below place };

    fn read<F: Fn(Global, &[Token], u32, bool, u8, usize) -> Result<(Expr, usize), Stop>>(
        grammar: &Grammar<'_, F>,
        place: usize,
    ) -> Result<(Self, usize), Stop> {
        grammar.arm(place)
    }
}

impl Listed for Expr {
    ghost item = { λ e. Positional (tree_of e) };

    ghost rule = { λ ts below place. parse.positional ts below place };

    #[tactic(auto, unfolding(stan_expr_rules::specs::Parse::positional))]
    fn read<F: Fn(Global, &[Token], u32, bool, u8, usize) -> Result<(Expr, usize), Stop>>(
        grammar: &Grammar<'_, F>,
        place: usize,
    ) -> Result<(Self, usize), Stop> {
        grammar.expression(place)
    }
}
