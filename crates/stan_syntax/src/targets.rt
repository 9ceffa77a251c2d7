//! What may be assigned to.

ghost use Rattle.std.specs.Prelude.{◌≡◌, ◌&&◌, map, option_map};
ghost use Rattle.stan_model_grammar.specs.Expressions as grammar;
ghost use Rattle.stan_model_grammar.specs.Strata as strata;
ghost use Rattle.stan_model_grammar.specs.Trees as model;
ghost use Rattle.stan_syntax.specs.Targets as spec;
ghost use Rattle.stan_model_grammar.specs.TreeLists.{may_be_called, furthers};
ghost use Rattle.stan_syntax.specs.Tree.{tree_of, arguments_of, element_of, suffix_of};

use crate::tree::{Arguments, Element, Expr, Form, Suffix};
use stan_model_grammar::operators::{ArrayStyle, AssignmentOperator, Leaf};
use stan_model_grammar::token::TokenKind;

/// Whether it is an array that holds `list(..)`, itself or as a value.
#[cycle(patterns)]
pub fn is_pattern(e: &Expr) -> bool
    ensures { result ≡ model.is_pattern (tree_of e.now) }
{
    match &e.form {
        Form::Leaf(_) => false,
        Form::Brackets(_) => false,
        Form::Array {
            style,
            elements,
            ..
        } => is_pattern_array(*style, elements.as_slice()),
        Form::IsSet { .. } => false,
        Form::Empty(_) => false,
        Form::Exit(_) => false,
        Form::New(..) => false,
        Form::Match { .. } => false,
        Form::Closure { .. } => false,
        Form::Arrow { .. } => false,
        Form::Text(_) => false,
        Form::Post(..) => false,
        Form::Prefix(..) => false,
        Form::Assignment(..) => false,
        Form::Chain(..) => false,
        Form::Binary(..) => false,
        Form::Conditional(..) => false,
    }
}

#[cycle(patterns)]
fn is_pattern_array(style: ArrayStyle, elements: &[Element]) -> bool
    ensures { result ≡ spec.is_pattern_array style (map element_of elements.now) }
{
    match style {
        ArrayStyle::List => true,
        ArrayStyle::Brackets => any_pattern(elements),
        ArrayStyle::Array => any_pattern(elements),
    }
}

#[cycle(patterns)]
fn any_pattern(elements: &[Element]) -> bool
    ensures { result ≡ model.further_pattern (furthers (map element_of elements.now)) }
{
    for element in elements {
        if is_pattern_element(element) {
            return true;
        }
    }
    false
}

#[cycle(patterns)]
fn is_pattern_element(element: &Element) -> bool
    ensures { result ≡ model.is_pattern_item (element_of element.now) }
{
    match element {
        Element::Spread(_) => false,
        Element::Value { value, .. } => is_pattern(value),
        Element::Keyed { value, .. } => is_pattern(value),
    }
}

fn takes_pattern(operator: AssignmentOperator) -> bool
    ensures { result ≡ strata.takes_pattern operator }
{
    match operator {
        AssignmentOperator::Assign | AssignmentOperator::Reference => true,
        _ => false,
    }
}

fn is_without(arguments: &Option<Arguments>) -> bool
    ensures { result ≡ grammar.is_without (may_be_called (option_map arguments_of arguments.now)) }
{
    match arguments {
        None => true,
        Some(_) => false,
    }
}

fn is_static_property(kind: TokenKind, arguments: &Option<Arguments>) -> bool
    ensures { result ≡ (grammar.is_variable kind && grammar.is_without (may_be_called (option_map arguments_of arguments.now))) }
{
    is_variable(kind) && is_without(arguments)
}

/// An element, a property or a static property.
fn is_place(suffix: &Suffix) -> bool
    ensures { result ≡ grammar.is_place (suffix_of suffix.now) }
{
    match suffix {
        Suffix::Push => true,
        Suffix::Index(_) => true,
        Suffix::Property { arguments, .. } => is_without(arguments),
        Suffix::Scoped(name, arguments) => is_static_property(name.kind, arguments),
        Suffix::Call(_) => false,
        Suffix::Increment => false,
        Suffix::Decrement => false,
    }
}

fn is_variable(kind: TokenKind) -> bool
    ensures { result ≡ grammar.is_variable kind }
{
    match kind {
        TokenKind::Variable => true,
        _ => false,
    }
}

fn ends_in_place(suffixes: &[Suffix]) -> bool
    ensures { result ≡ spec.ends_in_place (map suffix_of suffixes.now) }
{
    match suffixes.last() {
        Some(last) => is_place(last),
        None => false,
    }
}

fn is_variable_leaf(leaf: Leaf) -> bool
    ensures { result ≡ spec.is_variable_leaf leaf }
{
    match leaf {
        Leaf::Variable => true,
        _ => false,
    }
}

/// Whether the operator may assign to it.
pub fn is_assignable(operator: AssignmentOperator, e: &Expr) -> bool
    ensures { result ≡ grammar.is_assignable operator (tree_of e.now) }
{
    match &e.form {
        Form::Leaf(leaf) => is_variable_leaf(*leaf),
        Form::Brackets(_) => false,
        Form::Array { .. } => takes_pattern(operator),
        Form::IsSet { .. } => false,
        Form::Empty(_) => false,
        Form::Exit(_) => false,
        Form::New(..) => false,
        Form::Match { .. } => false,
        Form::Closure { .. } => false,
        Form::Arrow { .. } => false,
        Form::Text(_) => false,
        Form::Post(_, suffixes) => ends_in_place(suffixes.as_slice()),
        Form::Prefix(..) => false,
        Form::Assignment(..) => false,
        Form::Chain(..) => false,
        Form::Binary(..) => false,
        Form::Conditional(..) => false,
    }
}
