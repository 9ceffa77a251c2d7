//! Trees of PHP's expressions: how deep they are, which form they have, and what may be assigned to.
#![tactic(auto)]

mod depth;
mod exit;
mod production;
mod targets;
mod tree;

pub use exit::ends_program;
pub use stan_model_grammar::operators::{
    ArrayStyle, AssignmentOperator, BinaryOperator, Leaf, PrefixOperator, Production, Visibility,
};
pub use targets::{is_assignable, is_pattern};
pub use tree::{
    Argument, Arguments, Arm, Body, ClassReference, Element, Expr, Form, MemberName, Operation,
    Parameter, Stmt, Suffix, TextPart, TypeTree,
};
