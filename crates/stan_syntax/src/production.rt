//! Which form an expression has.

ghost use Rattle.std.specs.Prelude.{◌≡◌};
ghost use Rattle.stan_model_grammar.specs.Depth as depth;
ghost use Rattle.stan_model_grammar.specs.Trees as model;
ghost use Rattle.stan_syntax.specs.Tree.{tree_of, form_of};

use crate::tree::{Expr, Form};
use stan_model_grammar::operators::{Leaf, Production};

impl Form {
    /// Which production it is, whatever stands in it.
    pub fn production(&self) -> Production
        ensures { result ≡ model.form_production (form_of self.now) }
    {
        match self {
            Form::Leaf(leaf) => leaf_production(*leaf),
            Form::Brackets(_) => Production::Brackets,
            Form::Array { .. } => Production::Array,
            Form::IsSet { .. } => Production::IsSet,
            Form::Empty(_) => Production::Empty,
            Form::Exit(_) => Production::Exit,
            Form::New(..) => Production::New,
            Form::Match { .. } => Production::Match,
            Form::Closure { .. } => Production::Closure,
            Form::Arrow { .. } => Production::Arrow,
            Form::Text(_) => Production::Text,
            Form::Post(..) => Production::Post,
            Form::Prefix(..) => Production::Prefix,
            Form::Assignment(..) => Production::Assignment,
            Form::Chain(..) => Production::Chain,
            Form::Binary(..) => Production::Binary,
            Form::Conditional(..) => Production::Conditional,
        }
    }
}

impl Expr {
    /// The production of its form.
    pub fn production(&self) -> Production
        ensures { result ≡ model.production (tree_of self.now) }
    {
        self.form.production()
    }

    /// Whether it is an operator with its operands.
    pub fn is_operation(&self) -> bool
        ensures { result ≡ depth.is_operation (tree_of self.now) }
    {
        operates(self.production())
    }
}

fn leaf_production(leaf: Leaf) -> Production
    ensures { result ≡ model.leaf_production leaf }
{
    match leaf {
        Leaf::Integer | Leaf::Float | Leaf::Text => Production::Literal,
        Leaf::Variable => Production::Variable,
        Leaf::Name => Production::Name,
        Leaf::Static => Production::Static,
    }
}

fn operates(production: Production) -> bool
    ensures { result ≡ model.operates production }
{
    match production {
        Production::Prefix => true,
        Production::Assignment => true,
        Production::Chain => true,
        Production::Binary => true,
        Production::Conditional => true,
        _ => false,
    }
}
