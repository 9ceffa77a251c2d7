//! Which names an expression itself holds, without its parts.

ghost use Rattle.std.specs.Prelude.{◌≡◌, Bool, ◌&&◌, ◌++◌, ◌∷◌, [], IfOk, MatchOption, None, Some, map};
ghost use Rattle.stan_model_grammar.specs.TreeLists.{listed, steps};
ghost use Rattle.stan_model_walk.specs.Findings as findings;
ghost use Rattle.stan_model_walk.specs.Nodes as model;
ghost use Rattle.stan_syntax.specs.Tree.{tree_of, arguments_of, argument_of, suffix_of};
ghost use Rattle.stan_expr_walk.specs.Found.{found_of};

use crate::found::{Finding, Found, push};
use stan_base::OutOfMemory;
use stan_model_grammar::operators::{BinaryOperator, Leaf, Production};
use stan_model_grammar::token::Token;
use stan_syntax::{Argument, Arguments, Expr, Form, Suffix};

fn is_name(e: &Expr) -> bool
    ensures { result ≡ model.is_name (tree_of e.now) }
{
    matches!(e.production(), Production::Name)
}

fn takes_name(suffix: &Suffix) -> bool
    ensures { result ≡ model.takes_name (suffix_of suffix.now) }
{
    match suffix {
        Suffix::Push => false,
        Suffix::Index(_) => false,
        Suffix::Property { .. } => false,
        Suffix::Scoped(..) => true,
        Suffix::Call(_) => true,
        Suffix::Increment => false,
        Suffix::Decrement => false,
    }
}

fn first_takes_name(suffixes: &[Suffix]) -> bool
    ensures { result ≡ model.first_takes_name (steps (map suffix_of suffixes.now)) }
{
    match suffixes {
        [] => false,
        [first, ..] => takes_name(first),
    }
}

/// Whether a name stands first that is that of a function or a class.
pub fn begins_with_name(e: &Expr, suffixes: &[Suffix]) -> bool
    ensures { result ≡ model.begins_with_name (tree_of e.now) (steps (map suffix_of suffixes.now)) }
{
    is_name(e) && first_takes_name(suffixes)
}

/// Whether the operand behind an operator is the name of a class.
pub fn names_class(operator: BinaryOperator, operand: &Expr) -> bool
    ensures { result ≡ (model.takes_class operator && model.is_name (tree_of operand.now)) }
{
    matches!(operator, BinaryOperator::InstanceOf) && is_name(operand)
}

fn leaf_text(first: Token, leaf: Leaf) -> Option<Token>
    ensures { result ≡ findings.leaf_text first leaf }
{
    match leaf {
        Leaf::Text => Some(first),
        Leaf::Integer => None,
        Leaf::Float => None,
        Leaf::Variable => None,
        Leaf::Name => None,
        Leaf::Static => None,
    }
}

// A text without insertions.
fn text(e: &Expr) -> Option<Token>
    ensures { result ≡ findings.text_of (tree_of e.now) }
{
    match &e.form {
        Form::Leaf(leaf) => leaf_text(e.first, *leaf),
        Form::Brackets(_) => None,
        Form::Array { .. } => None,
        Form::IsSet { .. } => None,
        Form::Empty(_) => None,
        Form::Exit(_) => None,
        Form::New(..) => None,
        Form::Match { .. } => None,
        Form::Closure { .. } => None,
        Form::Arrow { .. } => None,
        Form::Text(_) => None,
        Form::Post(..) => None,
        Form::Prefix(..) => None,
        Form::Assignment(..) => None,
        Form::Chain(..) => None,
        Form::Binary(..) => None,
        Form::Conditional(..) => None,
    }
}

fn argument_text(argument: &Argument) -> Option<Token>
    ensures { result ≡ findings.item_text (argument_of argument.now) }
{
    match argument {
        Argument::Positional(e) => text(e),
        Argument::Spread(_) => None,
        Argument::Named(..) => None,
    }
}

fn first_listed_text(arguments: &[Argument]) -> Option<Token>
    ensures { (comma : Bool) → result ≡ findings.first_text (listed (map argument_of arguments.now) comma) }
{
    match arguments {
        [] => None,
        [first, ..] => argument_text(first),
    }
}

// Such a text as the first argument.
fn first_text(arguments: &Arguments) -> Option<Token>
    ensures { result ≡ findings.first_text (arguments_of arguments.now) }
{
    first_listed_text(arguments.list.as_slice())
}

fn call_arguments(suffix: &Suffix) -> Option<&Arguments>
    ensures { MatchOption result (findings.first_arguments (steps (suffix_of suffix.now ∷ [])) ≡ None) (λ es. findings.first_arguments (steps (suffix_of suffix.now ∷ [])) ≡ Some (arguments_of es.now)) }
{
    match suffix {
        Suffix::Push => None,
        Suffix::Index(_) => None,
        Suffix::Property { .. } => None,
        Suffix::Scoped(..) => None,
        Suffix::Call(arguments) => Some(arguments),
        Suffix::Increment => None,
        Suffix::Decrement => None,
    }
}

// What stands in the brackets that follow at once.
fn first_arguments(suffixes: &[Suffix]) -> Option<&Arguments>
    ensures { MatchOption result (findings.first_arguments (steps (map suffix_of suffixes.now)) ≡ None) (λ es. findings.first_arguments (steps (map suffix_of suffixes.now)) ≡ Some (arguments_of es.now)) }
{
    match suffixes {
        [] => None,
        [first, ..] => call_arguments(first),
    }
}

fn push_call(
    name: Token,
    arguments: &Arguments,
    inner: bool,
    found: &mut Vec<Found>,
) -> Result<(), OutOfMemory>
    ensures { IfOk result (λ u. map found_of found.new.items ≡ map found_of found.old.items ++ findings.placed inner (findings.called_with name (Some (arguments_of arguments.now)))) }
{
    push(inner, Finding::Calls(name), found)?;
    match first_text(arguments) {
        None => Ok(()),
        Some(text) => push(inner, Finding::Defines(name, text), found),
    }
}

fn push_called(
    head: &Expr,
    suffixes: &[Suffix],
    inner: bool,
    found: &mut Vec<Found>,
) -> Result<(), OutOfMemory>
    ensures { IfOk result (λ u. map found_of found.new.items ≡ map found_of found.old.items ++ findings.placed inner (findings.called (tree_of head.now) (steps (map suffix_of suffixes.now)))) }
{
    match first_arguments(suffixes) {
        None => Ok(()),
        Some(arguments) => {
            if is_name(head) {
                push_call(head.first, arguments, inner, found)
            } else {
                Ok(())
            }
        }
    }
}

fn push_leaf(
    first: Token,
    leaf: Leaf,
    inner: bool,
    found: &mut Vec<Found>,
) -> Result<(), OutOfMemory>
    ensures { IfOk result (λ u. map found_of found.new.items ≡ map found_of found.old.items ++ findings.placed inner (findings.of_leaf first leaf)) }
{
    match leaf {
        Leaf::Name => push(inner, Finding::Fetches(first), found),
        Leaf::Integer => Ok(()),
        Leaf::Float => Ok(()),
        Leaf::Text => Ok(()),
        Leaf::Variable => Ok(()),
        Leaf::Static => Ok(()),
    }
}

/// Puts the names that the expression itself holds, without its parts, behind the others.
pub fn own_found(e: &Expr, inner: bool, found: &mut Vec<Found>) -> Result<(), OutOfMemory>
    ensures { IfOk result (λ u. map found_of found.new.items ≡ map found_of found.old.items ++ findings.found_in inner (model.AnExpression (tree_of e.now))) }
{
    match &e.form {
        Form::Leaf(leaf) => push_leaf(e.first, *leaf, inner, found),
        Form::Post(head, suffixes) => push_called(head.get(), suffixes.as_slice(), inner, found),
        Form::Brackets(_) => Ok(()),
        Form::Array { .. } => Ok(()),
        Form::IsSet { .. } => Ok(()),
        Form::Empty(_) => Ok(()),
        Form::Exit(_) => Ok(()),
        Form::New(..) => Ok(()),
        Form::Match { .. } => Ok(()),
        Form::Closure { .. } => Ok(()),
        Form::Arrow { .. } => Ok(()),
        Form::Text(_) => Ok(()),
        Form::Prefix(..) => Ok(()),
        Form::Assignment(..) => Ok(()),
        Form::Chain(..) => Ok(()),
        Form::Binary(..) => Ok(()),
        Form::Conditional(..) => Ok(()),
    }
}
