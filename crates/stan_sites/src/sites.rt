//! The walk through an expression for its sites.

ghost use Rattle.std.specs.Prelude.{◌≡◌, ◌++◌, [], ◌∷◌, IfOk, map, option_map};
ghost use Rattle.std.specs.List.{flat_map};
ghost use Rattle.stan_model_grammar.specs.Depth.{is_operation};
ghost use Rattle.stan_model_grammar.specs.Sites as model;
ghost use Rattle.stan_model_grammar.specs.TreeLists.{may_be_called, steps};
ghost use Rattle.stan_syntax.specs.Tree.{tree_of, form_of, arguments_of, argument_of, element_of, parameter_of, arm_of, class_of, suffix_of, member_of, operation_of, part_of, body_of, statement_of};
ghost use Rattle.stan_sites.specs.Sites.{site_of, call_of, is_name, begins_with_call};

use stan_base::OutOfMemory;
use stan_model_grammar::operators::Production;
use stan_model_grammar::token::Token;
use stan_syntax::{
    Argument, Arguments, Arm, Body, ClassReference, Element, Expr, Form, MemberName, Operation,
    Parameter, Stmt, Suffix, TextPart,
};
use std::alloc::Global;

// More than 200 levels are too many, so they are counted up to 201.
const MOST_LEVELS: u8 = 201;

/// The held body of a closure: how many levels are open around its braces, the place of the token behind its `{`, and the place of its `}`.
#[derive(Clone, Copy, Debug)]
pub struct HeldBody {
    pub levels: u8,
    pub from: u32,
    pub to: u32,
}

/// What stands anywhere in an expression.
#[derive(Clone, Copy, Debug)]
pub enum Site {
    /// A call, by the token of the function's name.
    Call(Token),
    Body(HeldBody),
}

/// The sites of an expression from left to right, where no level is open around it.
pub fn sites_of(alloc: Global, e: &Expr) -> Result<Vec<Site>, OutOfMemory>
    ensures { IfOk result (λ found. map site_of found.items ≡ model.sites 0 (tree_of e.now)) }
{
    let mut found = Vec::new(alloc);
    expr_sites(e, 0, &mut found)?;
    Ok(found)
}

fn deeper(level: u8) -> u8
    ensures { result ≡ model.deeper level }
{
    level.saturating_add(1).min(MOST_LEVELS)
}

// The level of a left side.
fn left_level(e: &Expr, level: u8) -> u8
    ensures { result ≡ model.left_level (is_operation (tree_of e.now)) level }
{
    if e.is_operation() {
        deeper(level)
    } else {
        level
    }
}

fn is_name(e: &Expr) -> bool
    ensures { result ≡ is_name (tree_of e.now) }
{
    matches!(e.production(), Production::Name)
}

fn begins_with_call(suffixes: &[Suffix]) -> bool
    ensures { result ≡ begins_with_call (steps (map suffix_of suffixes.now)) }
{
    match suffixes {
        [] => false,
        [first, ..] => is_call(first),
    }
}

fn is_call(suffix: &Suffix) -> bool
    ensures { result ≡ begins_with_call (steps (suffix_of suffix.now ∷ [])) }
{
    match suffix {
        Suffix::Push => false,
        Suffix::Index(_) => false,
        Suffix::Property { .. } => false,
        Suffix::Scoped(..) => false,
        Suffix::Call(_) => true,
        Suffix::Increment => false,
        Suffix::Decrement => false,
    }
}

// The name that is called, where a name stands first and brackets with arguments follow.
fn called(e: &Expr, suffixes: &[Suffix]) -> Option<Token>
    ensures { call_of result ≡ model.called (tree_of e.now) (steps (map suffix_of suffixes.now)) }
{
    if is_name(e) && begins_with_call(suffixes) {
        Some(e.first)
    } else {
        None
    }
}

fn push_call(e: &Expr, suffixes: &[Suffix], found: &mut Vec<Site>) -> Result<(), OutOfMemory>
    ensures { IfOk result (λ u. map site_of found.new.items ≡ map site_of found.old.items ++ model.called (tree_of e.now) (steps (map suffix_of suffixes.now))) }
{
    if let Some(name) = called(e, suffixes) {
        found.push(Site::Call(name))?;
    }
    Ok(())
}

#[cycle(sites)]
fn expr_sites(e: &Expr, level: u8, found: &mut Vec<Site>) -> Result<(), OutOfMemory>
    ensures { IfOk result (λ u. map site_of found.new.items ≡ map site_of found.old.items ++ model.sites level (tree_of e.now)) }
{
    form_sites(&e.form, level, found)
}

#[cycle(sites)]
fn form_sites(form: &Form, level: u8, found: &mut Vec<Site>) -> Result<(), OutOfMemory>
    ensures { IfOk result (λ u. map site_of found.new.items ≡ map site_of found.old.items ++ model.form_sites level (form_of form.now)) }
{
    match form {
        Form::Leaf(_) => Ok(()),
        Form::Brackets(e) => expr_sites(e.get(), deeper(level), found),
        Form::Array { elements, .. } => elements_sites(elements.as_slice(), deeper(level), found),
        Form::IsSet { operands, .. } => exprs_sites(operands.as_slice(), deeper(level), found),
        Form::Empty(e) => expr_sites(e.get(), deeper(level), found),
        Form::Exit(arguments) => called_sites(arguments, level, found),
        Form::New(class, arguments) => {
            class_sites(class, level, found)?;
            called_sites(arguments, level, found)
        }
        Form::Match { subject, arms, .. } => {
            expr_sites(subject.get(), deeper(level), found)?;
            arms_sites(arms.as_slice(), deeper(level), found)
        }
        Form::Closure {
            parameters,
            body,
            ..
        } => {
            parameters_sites(parameters.as_slice(), deeper(level), found)?;
            body_sites(body, level, found)
        }
        Form::Arrow {
            parameters,
            value,
            ..
        } => {
            parameters_sites(parameters.as_slice(), deeper(deeper(level)), found)?;
            expr_sites(value.get(), deeper(level), found)
        }
        Form::Text(parts) => parts_sites(parts.as_slice(), level, found),
        Form::Post(e, suffixes) => {
            push_call(e.get(), suffixes.as_slice(), found)?;
            expr_sites(e.get(), level, found)?;
            suffixes_sites(suffixes.as_slice(), level, found)
        }
        Form::Prefix(_, e) => expr_sites(e.get(), deeper(level), found),
        Form::Assignment(target, _, e) => {
            expr_sites(target.get(), deeper(level), found)?;
            expr_sites(e.get(), deeper(level), found)
        }
        Form::Chain(e, operations) => {
            expr_sites(e.get(), left_level(e.get(), level), found)?;
            operations_sites(operations.as_slice(), deeper(level), found)
        }
        Form::Binary(left, _, _, right) => {
            expr_sites(left.get(), left_level(left.get(), level), found)?;
            expr_sites(right.get(), deeper(level), found)
        }
        Form::Conditional(condition, then, otherwise) => {
            expr_sites(condition.get(), level, found)?;
            expr_sites(then.get(), deeper(level), found)?;
            expr_sites(otherwise.get(), deeper(level), found)
        }
    }
}

#[cycle(sites)]
fn exprs_sites(es: &[Expr], level: u8, found: &mut Vec<Site>) -> Result<(), OutOfMemory>
    ensures { IfOk result (λ u. map site_of found.new.items ≡ map site_of found.old.items ++ flat_map (λ x. model.sites level (tree_of x)) es.now) }
{
    for e in es {
        expr_sites(e, level, found)?;
    }
    Ok(())
}

// With the brackets.
#[cycle(sites)]
fn called_sites(
    arguments: &Option<Arguments>,
    level: u8,
    found: &mut Vec<Site>,
) -> Result<(), OutOfMemory>
    ensures { IfOk result (λ u. map site_of found.new.items ≡ map site_of found.old.items ++ model.arguments_sites level (may_be_called (option_map arguments_of arguments.now))) }
{
    match arguments {
        None => Ok(()),
        Some(arguments) => arguments_sites(arguments, level, found),
    }
}

// With the brackets.
#[cycle(sites)]
fn arguments_sites(
    arguments: &Arguments,
    level: u8,
    found: &mut Vec<Site>,
) -> Result<(), OutOfMemory>
    ensures { IfOk result (λ u. map site_of found.new.items ≡ map site_of found.old.items ++ model.items_sites (model.deeper level) (arguments_of arguments.now)) }
{
    listed_sites(arguments.list.as_slice(), deeper(level), found)
}

#[cycle(sites)]
fn listed_sites(arguments: &[Argument], level: u8, found: &mut Vec<Site>) -> Result<(), OutOfMemory>
    ensures { IfOk result (λ u. map site_of found.new.items ≡ map site_of found.old.items ++ flat_map (λ x. model.item_sites level (argument_of x)) arguments.now) }
{
    for argument in arguments {
        argument_sites(argument, level, found)?;
    }
    Ok(())
}

#[cycle(sites)]
fn argument_sites(argument: &Argument, level: u8, found: &mut Vec<Site>) -> Result<(), OutOfMemory>
    ensures { IfOk result (λ u. map site_of found.new.items ≡ map site_of found.old.items ++ model.item_sites level (argument_of argument.now)) }
{
    match argument {
        Argument::Positional(e) => expr_sites(e, level, found),
        Argument::Spread(e) => expr_sites(e, level, found),
        Argument::Named(_, e) => expr_sites(e, level, found),
    }
}

#[cycle(sites)]
fn elements_sites(elements: &[Element], level: u8, found: &mut Vec<Site>) -> Result<(), OutOfMemory>
    ensures { IfOk result (λ u. map site_of found.new.items ≡ map site_of found.old.items ++ flat_map (λ x. model.item_sites level (element_of x)) elements.now) }
{
    for element in elements {
        element_sites(element, level, found)?;
    }
    Ok(())
}

#[cycle(sites)]
fn element_sites(element: &Element, level: u8, found: &mut Vec<Site>) -> Result<(), OutOfMemory>
    ensures { IfOk result (λ u. map site_of found.new.items ≡ map site_of found.old.items ++ model.item_sites level (element_of element.now)) }
{
    match element {
        Element::Spread(e) => expr_sites(e, level, found),
        Element::Value { value, .. } => expr_sites(value, level, found),
        Element::Keyed { key, value, .. } => {
            expr_sites(key, level, found)?;
            expr_sites(value, level, found)
        }
    }
}

#[cycle(sites)]
fn parameters_sites(
    parameters: &[Parameter],
    level: u8,
    found: &mut Vec<Site>,
) -> Result<(), OutOfMemory>
    ensures { IfOk result (λ u. map site_of found.new.items ≡ map site_of found.old.items ++ flat_map (λ x. model.item_sites level (parameter_of x)) parameters.now) }
{
    for parameter in parameters {
        parameter_sites(parameter, level, found)?;
    }
    Ok(())
}

#[cycle(sites)]
fn parameter_sites(
    parameter: &Parameter,
    level: u8,
    found: &mut Vec<Site>,
) -> Result<(), OutOfMemory>
    ensures { IfOk result (λ u. map site_of found.new.items ≡ map site_of found.old.items ++ model.item_sites level (parameter_of parameter.now)) }
{
    match &parameter.default {
        None => Ok(()),
        Some(e) => expr_sites(e.get(), level, found),
    }
}

#[cycle(sites)]
fn arms_sites(arms: &[Arm], level: u8, found: &mut Vec<Site>) -> Result<(), OutOfMemory>
    ensures { IfOk result (λ u. map site_of found.new.items ≡ map site_of found.old.items ++ flat_map (λ x. model.item_sites level (arm_of x)) arms.now) }
{
    for arm in arms {
        arm_sites(arm, level, found)?;
    }
    Ok(())
}

#[cycle(sites)]
fn arm_sites(arm: &Arm, level: u8, found: &mut Vec<Site>) -> Result<(), OutOfMemory>
    ensures { IfOk result (λ u. map site_of found.new.items ≡ map site_of found.old.items ++ model.item_sites level (arm_of arm.now)) }
{
    match arm {
        Arm::Conditions {
            conditions,
            value,
            ..
        } => {
            exprs_sites(conditions.as_slice(), level, found)?;
            expr_sites(value, level, found)
        }
        Arm::Default { value, .. } => expr_sites(value, level, found),
    }
}

#[cycle(sites)]
fn class_sites(class: &ClassReference, level: u8, found: &mut Vec<Site>) -> Result<(), OutOfMemory>
    ensures { IfOk result (λ u. map site_of found.new.items ≡ map site_of found.old.items ++ model.class_sites level (class_of class.now)) }
{
    match class {
        ClassReference::Named(_) => Ok(()),
        ClassReference::Variable(_, suffixes) => suffixes_sites(suffixes.as_slice(), level, found),
        ClassReference::Scoped(_, _, suffixes) => suffixes_sites(suffixes.as_slice(), level, found),
        ClassReference::Computed(e) => expr_sites(e.get(), deeper(level), found),
    }
}

#[cycle(sites)]
fn suffixes_sites(suffixes: &[Suffix], level: u8, found: &mut Vec<Site>) -> Result<(), OutOfMemory>
    ensures { IfOk result (λ u. map site_of found.new.items ≡ map site_of found.old.items ++ flat_map (λ x. model.step_sites level (suffix_of x)) suffixes.now) }
{
    for suffix in suffixes {
        suffix_sites(suffix, level, found)?;
    }
    Ok(())
}

#[cycle(sites)]
fn suffix_sites(suffix: &Suffix, level: u8, found: &mut Vec<Site>) -> Result<(), OutOfMemory>
    ensures { IfOk result (λ u. map site_of found.new.items ≡ map site_of found.old.items ++ model.step_sites level (suffix_of suffix.now)) }
{
    match suffix {
        Suffix::Push => Ok(()),
        Suffix::Index(e) => expr_sites(e.get(), deeper(level), found),
        Suffix::Property {
            name,
            arguments,
            ..
        } => {
            member_sites(name, level, found)?;
            called_sites(arguments, level, found)
        }
        Suffix::Scoped(_, arguments) => called_sites(arguments, level, found),
        Suffix::Call(arguments) => arguments_sites(arguments, level, found),
        Suffix::Increment => Ok(()),
        Suffix::Decrement => Ok(()),
    }
}

#[cycle(sites)]
fn member_sites(name: &MemberName, level: u8, found: &mut Vec<Site>) -> Result<(), OutOfMemory>
    ensures { IfOk result (λ u. map site_of found.new.items ≡ map site_of found.old.items ++ model.member_sites level (member_of name.now)) }
{
    match name {
        MemberName::Named(_) => Ok(()),
        MemberName::Computed(e) => expr_sites(e.get(), deeper(level), found),
    }
}

#[cycle(sites)]
fn operations_sites(
    operations: &[Operation],
    level: u8,
    found: &mut Vec<Site>,
) -> Result<(), OutOfMemory>
    ensures { IfOk result (λ u. map site_of found.new.items ≡ map site_of found.old.items ++ flat_map (λ x. model.sites level (operation_of x).operand) operations.now) }
{
    for operation in operations {
        expr_sites(&operation.operand, level, found)?;
    }
    Ok(())
}

#[cycle(sites)]
fn parts_sites(parts: &[TextPart], level: u8, found: &mut Vec<Site>) -> Result<(), OutOfMemory>
    ensures { IfOk result (λ u. map site_of found.new.items ≡ map site_of found.old.items ++ flat_map (λ x. model.step_sites level (part_of x)) parts.now) }
{
    for part in parts {
        part_sites(part, level, found)?;
    }
    Ok(())
}

#[cycle(sites)]
fn part_sites(part: &TextPart, level: u8, found: &mut Vec<Site>) -> Result<(), OutOfMemory>
    ensures { IfOk result (λ u. map site_of found.new.items ≡ map site_of found.old.items ++ model.step_sites level (part_of part.now)) }
{
    match part {
        TextPart::Token(_) => Ok(()),
        TextPart::Expression(e) => expr_sites(e, deeper(level), found),
    }
}

// With the braces.
#[cycle(sites)]
fn body_sites(body: &Body, level: u8, found: &mut Vec<Site>) -> Result<(), OutOfMemory>
    ensures { IfOk result (λ u. map site_of found.new.items ≡ map site_of found.old.items ++ model.body_sites level (body_of body.now)) }
{
    match body {
        Body::Held { from, to } => push_body(level, *from, *to, found),
        Body::Read(statements) => statements_sites(statements.as_slice(), deeper(level), found),
    }
}

fn push_body(levels: u8, from: u32, to: u32, found: &mut Vec<Site>) -> Result<(), OutOfMemory>
    ensures { IfOk result (λ u. map site_of found.new.items ≡ map site_of found.old.items ++ model.BodySite (record { levels = levels; first = from; last = to }) ∷ []) }
{
    found.push(Site::Body(HeldBody { levels, from, to }))?;
    Ok(())
}

#[cycle(sites)]
fn statements_sites(
    statements: &[Stmt],
    level: u8,
    found: &mut Vec<Site>,
) -> Result<(), OutOfMemory>
    ensures { IfOk result (λ u. map site_of found.new.items ≡ map site_of found.old.items ++ flat_map (λ x. model.statement_sites level (statement_of x)) statements.now) }
{
    for statement in statements {
        statement_sites(statement, level, found)?;
    }
    Ok(())
}

#[cycle(sites)]
fn statement_sites(statement: &Stmt, level: u8, found: &mut Vec<Site>) -> Result<(), OutOfMemory>
    ensures { IfOk result (λ u. map site_of found.new.items ≡ map site_of found.old.items ++ model.statement_sites level (statement_of statement.now)) }
{
    match statement {
        Stmt::Expression(e) => expr_sites(e, level, found),
    }
}
