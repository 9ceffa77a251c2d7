//! The walk through an expression for the names that it holds.

ghost use Rattle.std.specs.Prelude.{◌≡◌, ◌++◌, IfOk, map, option_map};
ghost use Rattle.std.specs.List.{flat_map};
ghost use Rattle.stan_model_grammar.specs.TreeLists.{may_be_called, steps};
ghost use Rattle.stan_model_walk.specs.Findings.{found_in};
ghost use Rattle.stan_model_walk.specs.Nodes as model;
ghost use Rattle.stan_syntax.specs.Tree.{tree_of, form_of, arguments_of, argument_of, element_of, parameter_of, arm_of, class_of, suffix_of, member_of, operation_of, part_of};
ghost use Rattle.stan_expr_walk.specs.Found.{found_of};
ghost use Rattle.stan_expr_walk.specs.Taken.{head_taken, operand_taken};

use crate::found::Found;
use crate::names::{begins_with_name, names_class, own_found};
use stan_base::OutOfMemory;
use stan_syntax::{
    Argument, Arguments, Arm, ClassReference, Element, Expr, Form, MemberName, Operation,
    Parameter, Suffix, TextPart,
};

/// Puts what stands in an expression behind what was found. What the bodies of its closures hold stands elsewhere.
#[cycle(walk)]
pub fn expr_found(e: &Expr, inner: bool, found: &mut Vec<Found>) -> Result<(), OutOfMemory>
    ensures { IfOk result (λ u. map found_of found.new.items ≡ map found_of found.old.items ++ model.in_tree found_in inner (tree_of e.now)) }
{
    own_found(e, inner, found)?;
    form_found(&e.form, inner, found)
}

#[cycle(walk)]
fn form_found(form: &Form, inner: bool, found: &mut Vec<Found>) -> Result<(), OutOfMemory>
    ensures { IfOk result (λ u. map found_of found.new.items ≡ map found_of found.old.items ++ model.in_form found_in inner (form_of form.now)) }
{
    match form {
        Form::Leaf(_) => Ok(()),
        Form::Brackets(e) => expr_found(e.get(), inner, found),
        Form::Array { elements, .. } => elements_found(elements.as_slice(), inner, found),
        Form::IsSet { operands, .. } => exprs_found(operands.as_slice(), inner, found),
        Form::Empty(e) => expr_found(e.get(), inner, found),
        Form::Exit(arguments) => called_found(arguments, inner, found),
        Form::New(class, arguments) => {
            class_found(class, inner, found)?;
            called_found(arguments, inner, found)
        }
        Form::Match { subject, arms, .. } => {
            expr_found(subject.get(), inner, found)?;
            arms_found(arms.as_slice(), inner, found)
        }
        Form::Closure { parameters, .. } => parameters_found(parameters.as_slice(), true, found),
        Form::Arrow {
            parameters,
            value,
            ..
        } => {
            parameters_found(parameters.as_slice(), true, found)?;
            expr_found(value.get(), true, found)
        }
        Form::Text(parts) => parts_found(parts.as_slice(), inner, found),
        Form::Post(e, suffixes) => {
            head_found(e.get(), suffixes.as_slice(), inner, found)?;
            suffixes_found(suffixes.as_slice(), inner, found)
        }
        Form::Prefix(_, e) => expr_found(e.get(), inner, found),
        Form::Assignment(target, _, e) => {
            expr_found(target.get(), inner, found)?;
            expr_found(e.get(), inner, found)
        }
        Form::Chain(e, operations) => {
            expr_found(e.get(), inner, found)?;
            operations_found(operations.as_slice(), inner, found)
        }
        Form::Binary(left, _, _, right) => {
            expr_found(left.get(), inner, found)?;
            expr_found(right.get(), inner, found)
        }
        Form::Conditional(condition, then, otherwise) => {
            expr_found(condition.get(), inner, found)?;
            expr_found(then.get(), inner, found)?;
            expr_found(otherwise.get(), inner, found)
        }
    }
}

// What stands first, unless it is the name of a function or a class.
#[cycle(walk)]
fn head_found(
    e: &Expr,
    suffixes: &[Suffix],
    inner: bool,
    found: &mut Vec<Found>,
) -> Result<(), OutOfMemory>
    ensures { IfOk result (λ u. map found_of found.new.items ≡ map found_of found.old.items ++ head_taken inner (tree_of e.now) (steps (map suffix_of suffixes.now))) }
{
    if begins_with_name(e, suffixes) {
        return Ok(());
    }
    expr_found(e, inner, found)
}

#[cycle(walk)]
fn exprs_found(es: &[Expr], inner: bool, found: &mut Vec<Found>) -> Result<(), OutOfMemory>
    ensures { IfOk result (λ u. map found_of found.new.items ≡ map found_of found.old.items ++ flat_map (λ x. model.in_tree found_in inner (tree_of x)) es.now) }
{
    for e in es {
        expr_found(e, inner, found)?;
    }
    Ok(())
}

#[cycle(walk)]
fn called_found(
    arguments: &Option<Arguments>,
    inner: bool,
    found: &mut Vec<Found>,
) -> Result<(), OutOfMemory>
    ensures { IfOk result (λ u. map found_of found.new.items ≡ map found_of found.old.items ++ model.in_arguments found_in inner (may_be_called (option_map arguments_of arguments.now))) }
{
    match arguments {
        None => Ok(()),
        Some(arguments) => arguments_found(arguments, inner, found),
    }
}

#[cycle(walk)]
fn arguments_found(
    arguments: &Arguments,
    inner: bool,
    found: &mut Vec<Found>,
) -> Result<(), OutOfMemory>
    ensures { IfOk result (λ u. map found_of found.new.items ≡ map found_of found.old.items ++ model.in_items found_in inner (arguments_of arguments.now)) }
{
    listed_found(arguments.list.as_slice(), inner, found)
}

#[cycle(walk)]
fn listed_found(
    arguments: &[Argument],
    inner: bool,
    found: &mut Vec<Found>,
) -> Result<(), OutOfMemory>
    ensures { IfOk result (λ u. map found_of found.new.items ≡ map found_of found.old.items ++ flat_map (λ x. model.in_item found_in inner (argument_of x)) arguments.now) }
{
    for argument in arguments {
        argument_found(argument, inner, found)?;
    }
    Ok(())
}

#[cycle(walk)]
fn argument_found(
    argument: &Argument,
    inner: bool,
    found: &mut Vec<Found>,
) -> Result<(), OutOfMemory>
    ensures { IfOk result (λ u. map found_of found.new.items ≡ map found_of found.old.items ++ model.in_item found_in inner (argument_of argument.now)) }
{
    match argument {
        Argument::Positional(e) => expr_found(e, inner, found),
        Argument::Spread(e) => expr_found(e, inner, found),
        Argument::Named(_, e) => expr_found(e, inner, found),
    }
}

#[cycle(walk)]
fn elements_found(
    elements: &[Element],
    inner: bool,
    found: &mut Vec<Found>,
) -> Result<(), OutOfMemory>
    ensures { IfOk result (λ u. map found_of found.new.items ≡ map found_of found.old.items ++ flat_map (λ x. model.in_item found_in inner (element_of x)) elements.now) }
{
    for element in elements {
        element_found(element, inner, found)?;
    }
    Ok(())
}

#[cycle(walk)]
fn element_found(element: &Element, inner: bool, found: &mut Vec<Found>) -> Result<(), OutOfMemory>
    ensures { IfOk result (λ u. map found_of found.new.items ≡ map found_of found.old.items ++ model.in_item found_in inner (element_of element.now)) }
{
    match element {
        Element::Spread(e) => expr_found(e, inner, found),
        Element::Value { value, .. } => expr_found(value, inner, found),
        Element::Keyed { key, value, .. } => {
            expr_found(key, inner, found)?;
            expr_found(value, inner, found)
        }
    }
}

#[cycle(walk)]
fn parameters_found(
    parameters: &[Parameter],
    inner: bool,
    found: &mut Vec<Found>,
) -> Result<(), OutOfMemory>
    ensures { IfOk result (λ u. map found_of found.new.items ≡ map found_of found.old.items ++ flat_map (λ x. model.in_item found_in inner (parameter_of x)) parameters.now) }
{
    for parameter in parameters {
        parameter_found(parameter, inner, found)?;
    }
    Ok(())
}

#[cycle(walk)]
fn parameter_found(
    parameter: &Parameter,
    inner: bool,
    found: &mut Vec<Found>,
) -> Result<(), OutOfMemory>
    ensures { IfOk result (λ u. map found_of found.new.items ≡ map found_of found.old.items ++ model.in_item found_in inner (parameter_of parameter.now)) }
{
    match &parameter.default {
        None => Ok(()),
        Some(e) => expr_found(e.get(), inner, found),
    }
}

#[cycle(walk)]
fn arms_found(arms: &[Arm], inner: bool, found: &mut Vec<Found>) -> Result<(), OutOfMemory>
    ensures { IfOk result (λ u. map found_of found.new.items ≡ map found_of found.old.items ++ flat_map (λ x. model.in_item found_in inner (arm_of x)) arms.now) }
{
    for arm in arms {
        arm_found(arm, inner, found)?;
    }
    Ok(())
}

#[cycle(walk)]
fn arm_found(arm: &Arm, inner: bool, found: &mut Vec<Found>) -> Result<(), OutOfMemory>
    ensures { IfOk result (λ u. map found_of found.new.items ≡ map found_of found.old.items ++ model.in_item found_in inner (arm_of arm.now)) }
{
    match arm {
        Arm::Conditions {
            conditions,
            value,
            ..
        } => {
            exprs_found(conditions.as_slice(), inner, found)?;
            expr_found(value, inner, found)
        }
        Arm::Default { value, .. } => expr_found(value, inner, found),
    }
}

#[cycle(walk)]
fn class_found(
    class: &ClassReference,
    inner: bool,
    found: &mut Vec<Found>,
) -> Result<(), OutOfMemory>
    ensures { IfOk result (λ u. map found_of found.new.items ≡ map found_of found.old.items ++ model.in_class found_in inner (class_of class.now)) }
{
    match class {
        ClassReference::Named(_) => Ok(()),
        ClassReference::Variable(_, suffixes) => suffixes_found(suffixes.as_slice(), inner, found),
        ClassReference::Scoped(_, _, suffixes) => suffixes_found(suffixes.as_slice(), inner, found),
        ClassReference::Computed(e) => expr_found(e.get(), inner, found),
    }
}

#[cycle(walk)]
fn suffixes_found(
    suffixes: &[Suffix],
    inner: bool,
    found: &mut Vec<Found>,
) -> Result<(), OutOfMemory>
    ensures { IfOk result (λ u. map found_of found.new.items ≡ map found_of found.old.items ++ flat_map (λ x. model.in_step found_in inner (suffix_of x)) suffixes.now) }
{
    for suffix in suffixes {
        suffix_found(suffix, inner, found)?;
    }
    Ok(())
}

#[cycle(walk)]
fn suffix_found(suffix: &Suffix, inner: bool, found: &mut Vec<Found>) -> Result<(), OutOfMemory>
    ensures { IfOk result (λ u. map found_of found.new.items ≡ map found_of found.old.items ++ model.in_step found_in inner (suffix_of suffix.now)) }
{
    match suffix {
        Suffix::Push => Ok(()),
        Suffix::Index(e) => expr_found(e.get(), inner, found),
        Suffix::Property {
            name,
            arguments,
            ..
        } => {
            member_found(name, inner, found)?;
            called_found(arguments, inner, found)
        }
        Suffix::Scoped(_, arguments) => called_found(arguments, inner, found),
        Suffix::Call(arguments) => arguments_found(arguments, inner, found),
        Suffix::Increment => Ok(()),
        Suffix::Decrement => Ok(()),
    }
}

#[cycle(walk)]
fn member_found(name: &MemberName, inner: bool, found: &mut Vec<Found>) -> Result<(), OutOfMemory>
    ensures { IfOk result (λ u. map found_of found.new.items ≡ map found_of found.old.items ++ model.in_member_name found_in inner (member_of name.now)) }
{
    match name {
        MemberName::Named(_) => Ok(()),
        MemberName::Computed(e) => expr_found(e.get(), inner, found),
    }
}

#[cycle(walk)]
fn operations_found(
    operations: &[Operation],
    inner: bool,
    found: &mut Vec<Found>,
) -> Result<(), OutOfMemory>
    ensures { IfOk result (λ u. map found_of found.new.items ≡ map found_of found.old.items ++ flat_map (λ x. operand_taken inner (operation_of x)) operations.now) }
{
    for operation in operations {
        operation_found(operation, inner, found)?;
    }
    Ok(())
}

// The operand, unless it is the name of a class.
#[cycle(walk)]
fn operation_found(
    operation: &Operation,
    inner: bool,
    found: &mut Vec<Found>,
) -> Result<(), OutOfMemory>
    ensures { IfOk result (λ u. map found_of found.new.items ≡ map found_of found.old.items ++ operand_taken inner (operation_of operation.now)) }
{
    if names_class(operation.operator, &operation.operand) {
        return Ok(());
    }
    expr_found(&operation.operand, inner, found)
}

#[cycle(walk)]
fn parts_found(parts: &[TextPart], inner: bool, found: &mut Vec<Found>) -> Result<(), OutOfMemory>
    ensures { IfOk result (λ u. map found_of found.new.items ≡ map found_of found.old.items ++ flat_map (λ x. model.in_step found_in inner (part_of x)) parts.now) }
{
    for part in parts {
        part_found(part, inner, found)?;
    }
    Ok(())
}

#[cycle(walk)]
fn part_found(part: &TextPart, inner: bool, found: &mut Vec<Found>) -> Result<(), OutOfMemory>
    ensures { IfOk result (λ u. map found_of found.new.items ≡ map found_of found.old.items ++ model.in_step found_in inner (part_of part.now)) }
{
    match part {
        TextPart::Token(_) => Ok(()),
        TextPart::Expression(e) => expr_found(e, inner, found),
    }
}
