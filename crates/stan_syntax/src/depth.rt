//! How deep an expression is.

ghost use Rattle.std.specs.Prelude.{◌≡◌, ◌^◌, ◌+◌, ◌-◌, Bool, min, map, option_map};
ghost use Rattle.stan_model_grammar.specs.Depth as model;
ghost use Rattle.stan_model_grammar.specs.Trees.{Captured};
ghost use Rattle.stan_syntax.specs.Depth.{greatest};
ghost use Rattle.stan_model_grammar.specs.TreeLists.{may_be_called, listed};
ghost use Rattle.stan_syntax.specs.Tree.{tree_of, form_of, arguments_of, argument_of, element_of, parameter_of, arm_of, class_of, suffix_of, member_of, operation_of, part_of, body_of, statement_of};

use crate::tree::{
    Argument, Arguments, Arm, Body, ClassReference, Element, Expr, Form, MemberName, Operation,
    Parameter, Stmt, Suffix, TextPart,
};
use stan_model_grammar::token::{Token, TokenKind};

impl Expr {
    /// How deep it is, at most `u32::MAX`. One token is 0.
    ///
    /// - A pair of brackets is 1 deeper than what stands in it, and an empty pair is 1. Pairs are those of arguments, indices,
    ///   parameters, captured variables and bodies too, the braces of an insertion, and the index in `"$a[0]"`.
    /// - A prefix operator, a cast, an assignment and an arrow function are 1 deeper than their deepest part.
    /// - An operator between operands is 1 deeper than its right side. It is 1 deeper than its left side where that is an
    ///   operation of another stratum, and else as deep: `1 + 2 + 3` is 1, and `-1 + 2` is 2.
    /// - `? :` is as deep as its condition, and 1 deeper than its two other parts.
    pub fn depth(&self) -> u32
        ensures exact { result ≡ min (model.depth (tree_of self.now)) (2 ^ 32 - 1) }
    {
        expr_depth(self)
    }
}

fn captures_depth(captures: &[Token]) -> u32
    ensures { (comma : Bool) → result ≡ model.captures_depth (listed (map Captured captures.now) comma) }
{
    if captures.is_empty() { 0 } else { 1 }
}

fn inserted_depth(kind: TokenKind) -> u32
    ensures { result ≡ model.part_depth kind }
{
    match kind {
        TokenKind::InsertedElement => 1,
        _ => 0,
    }
}

#[cycle(depths)]
fn expr_depth(e: &Expr) -> u32
    ensures { result ≡ min (model.depth (tree_of e.now)) (2 ^ 32 - 1) }
{
    form_depth(&e.form)
}

#[cycle(depths)]
fn left_depth(e: &Expr) -> u32
    ensures { result ≡ min (model.left_depth (model.is_operation (tree_of e.now)) (model.depth (tree_of e.now))) (2 ^ 32 - 1) }
{
    let depth = form_depth(&e.form);
    if e.is_operation() {
        depth.saturating_add(1)
    } else {
        depth
    }
}

#[cycle(depths)]
fn form_depth(form: &Form) -> u32
    ensures { result ≡ min (model.form_depth (form_of form.now)) (2 ^ 32 - 1) }
{
    match form {
        Form::Leaf(_) => 0,
        Form::Brackets(e) => expr_depth(e.get()).saturating_add(1),
        Form::Array { elements, .. } => elements_depth(elements.as_slice()).saturating_add(1),
        Form::IsSet { operands, .. } => exprs_depth(operands.as_slice()).saturating_add(1),
        Form::Empty(e) => expr_depth(e.get()).saturating_add(1),
        Form::Exit(arguments) => called_depth(arguments),
        Form::New(class, arguments) => class_depth(class).max(called_depth(arguments)),
        Form::Match { subject, arms, .. } => expr_depth(subject.get())
            .max(arms_depth(arms.as_slice()))
            .saturating_add(1),
        Form::Closure {
            parameters,
            captures,
            body,
            ..
        } => parameters_depth(parameters.as_slice())
            .saturating_add(1)
            .max(captures_depth(captures.as_slice()))
            .max(body_depth(body)),
        Form::Arrow {
            parameters,
            value,
            ..
        } => parameters_depth(parameters.as_slice())
            .saturating_add(1)
            .max(expr_depth(value.get()))
            .saturating_add(1),
        Form::Text(parts) => parts_depth(parts.as_slice()),
        Form::Post(e, suffixes) => expr_depth(e.get()).max(suffixes_depth(suffixes.as_slice())),
        Form::Prefix(_, e) => expr_depth(e.get()).saturating_add(1),
        Form::Assignment(target, _, e) => expr_depth(target.get())
            .max(expr_depth(e.get()))
            .saturating_add(1),
        Form::Chain(e, operations) => {
            left_depth(e.get()).max(operations_depth(operations.as_slice()))
        }
        Form::Binary(left, _, _, right) => {
            left_depth(left.get()).max(expr_depth(right.get()).saturating_add(1))
        }
        Form::Conditional(condition, then, otherwise) => expr_depth(condition.get())
            .max(expr_depth(then.get()).saturating_add(1))
            .max(expr_depth(otherwise.get()).saturating_add(1)),
    }
}

#[cycle(depths)]
fn exprs_depth(es: &[Expr]) -> u32
    ensures { result ≡ min (greatest (λ e. model.depth (tree_of e)) es.now) (2 ^ 32 - 1) }
{
    let mut most = 0;
    for e in es {
        most = expr_depth(e).max(most);
    }
    most
}

#[cycle(depths)]
fn called_depth(arguments: &Option<Arguments>) -> u32
    ensures { result ≡ min (model.arguments_depth (may_be_called (option_map arguments_of arguments.now))) (2 ^ 32 - 1) }
{
    match arguments {
        None => 0,
        Some(arguments) => arguments_depth(arguments),
    }
}

// With the brackets.
#[cycle(depths)]
fn arguments_depth(arguments: &Arguments) -> u32
    ensures { result ≡ min (model.items_depth (arguments_of arguments.now) + 1) (2 ^ 32 - 1) }
{
    listed_depth(arguments.list.as_slice()).saturating_add(1)
}

#[cycle(depths)]
fn listed_depth(arguments: &[Argument]) -> u32
    ensures { result ≡ min (greatest (λ x. model.item_depth (argument_of x)) arguments.now) (2 ^ 32 - 1) }
{
    let mut most = 0;
    for argument in arguments {
        most = argument_depth(argument).max(most);
    }
    most
}

#[cycle(depths)]
fn argument_depth(argument: &Argument) -> u32
    ensures { result ≡ min (model.item_depth (argument_of argument.now)) (2 ^ 32 - 1) }
{
    match argument {
        Argument::Positional(e) => expr_depth(e),
        Argument::Spread(e) => expr_depth(e),
        Argument::Named(_, e) => expr_depth(e),
    }
}

#[cycle(depths)]
fn elements_depth(elements: &[Element]) -> u32
    ensures { result ≡ min (greatest (λ x. model.item_depth (element_of x)) elements.now) (2 ^ 32 - 1) }
{
    let mut most = 0;
    for element in elements {
        most = element_depth(element).max(most);
    }
    most
}

#[cycle(depths)]
fn element_depth(element: &Element) -> u32
    ensures { result ≡ min (model.item_depth (element_of element.now)) (2 ^ 32 - 1) }
{
    match element {
        Element::Spread(e) => expr_depth(e),
        Element::Value { value, .. } => expr_depth(value),
        Element::Keyed { key, value, .. } => expr_depth(key).max(expr_depth(value)),
    }
}

#[cycle(depths)]
fn parameters_depth(parameters: &[Parameter]) -> u32
    ensures { result ≡ min (greatest (λ x. model.item_depth (parameter_of x)) parameters.now) (2 ^ 32 - 1) }
{
    let mut most = 0;
    for parameter in parameters {
        most = parameter_depth(parameter).max(most);
    }
    most
}

#[cycle(depths)]
fn parameter_depth(parameter: &Parameter) -> u32
    ensures { result ≡ min (model.item_depth (parameter_of parameter.now)) (2 ^ 32 - 1) }
{
    match &parameter.default {
        None => 0,
        Some(e) => expr_depth(e.get()),
    }
}

#[cycle(depths)]
fn arms_depth(arms: &[Arm]) -> u32
    ensures { result ≡ min (greatest (λ x. model.item_depth (arm_of x)) arms.now) (2 ^ 32 - 1) }
{
    let mut most = 0;
    for arm in arms {
        most = arm_depth(arm).max(most);
    }
    most
}

#[cycle(depths)]
fn arm_depth(arm: &Arm) -> u32
    ensures { result ≡ min (model.item_depth (arm_of arm.now)) (2 ^ 32 - 1) }
{
    match arm {
        Arm::Conditions {
            conditions,
            value,
            ..
        } => exprs_depth(conditions.as_slice()).max(expr_depth(value)),
        Arm::Default { value, .. } => expr_depth(value),
    }
}

#[cycle(depths)]
fn class_depth(class: &ClassReference) -> u32
    ensures { result ≡ min (model.class_depth (class_of class.now)) (2 ^ 32 - 1) }
{
    match class {
        ClassReference::Named(_) => 0,
        ClassReference::Variable(_, suffixes) => suffixes_depth(suffixes.as_slice()),
        ClassReference::Scoped(_, _, suffixes) => suffixes_depth(suffixes.as_slice()),
        ClassReference::Computed(e) => expr_depth(e.get()).saturating_add(1),
    }
}

#[cycle(depths)]
fn suffixes_depth(suffixes: &[Suffix]) -> u32
    ensures { result ≡ min (greatest (λ x. model.step_depth (suffix_of x)) suffixes.now) (2 ^ 32 - 1) }
{
    let mut most = 0;
    for suffix in suffixes {
        most = suffix_depth(suffix).max(most);
    }
    most
}

#[cycle(depths)]
fn suffix_depth(suffix: &Suffix) -> u32
    ensures { result ≡ min (model.step_depth (suffix_of suffix.now)) (2 ^ 32 - 1) }
{
    match suffix {
        Suffix::Push => 1,
        Suffix::Index(e) => expr_depth(e.get()).saturating_add(1),
        Suffix::Property {
            name,
            arguments,
            ..
        } => member_depth(name).max(called_depth(arguments)),
        Suffix::Scoped(_, arguments) => called_depth(arguments),
        Suffix::Call(arguments) => arguments_depth(arguments),
        Suffix::Increment => 0,
        Suffix::Decrement => 0,
    }
}

#[cycle(depths)]
fn member_depth(name: &MemberName) -> u32
    ensures { result ≡ min (model.member_depth (member_of name.now)) (2 ^ 32 - 1) }
{
    match name {
        MemberName::Named(_) => 0,
        MemberName::Computed(e) => expr_depth(e.get()).saturating_add(1),
    }
}

#[cycle(depths)]
fn operations_depth(operations: &[Operation]) -> u32
    ensures { result ≡ min (greatest (λ x. model.depth (operation_of x).operand + 1) operations.now) (2 ^ 32 - 1) }
{
    let mut most = 0;
    for operation in operations {
        most = expr_depth(&operation.operand).saturating_add(1).max(most);
    }
    most
}

#[cycle(depths)]
fn parts_depth(parts: &[TextPart]) -> u32
    ensures { result ≡ min (greatest (λ x. model.step_depth (part_of x)) parts.now) (2 ^ 32 - 1) }
{
    let mut most = 0;
    for part in parts {
        most = part_depth(part).max(most);
    }
    most
}

#[cycle(depths)]
fn part_depth(part: &TextPart) -> u32
    ensures { result ≡ min (model.step_depth (part_of part.now)) (2 ^ 32 - 1) }
{
    match part {
        TextPart::Token(token) => inserted_depth(token.kind),
        TextPart::Expression(e) => expr_depth(e).saturating_add(1),
    }
}

// With the braces.
#[cycle(depths)]
fn body_depth(body: &Body) -> u32
    ensures { result ≡ min (model.body_depth (body_of body.now)) (2 ^ 32 - 1) }
{
    match body {
        Body::Held { .. } => 1,
        Body::Read(statements) => statements_depth(statements.as_slice()).saturating_add(1),
    }
}

#[cycle(depths)]
fn statements_depth(statements: &[Stmt]) -> u32
    ensures { result ≡ min (greatest (λ x. model.statement_depth (statement_of x)) statements.now) (2 ^ 32 - 1) }
{
    let mut most = 0;
    for statement in statements {
        most = statement_depth(statement).max(most);
    }
    most
}

#[cycle(depths)]
fn statement_depth(statement: &Stmt) -> u32
    ensures { result ≡ min (model.statement_depth (statement_of statement.now)) (2 ^ 32 - 1) }
{
    match statement {
        Stmt::Expression(e) => expr_depth(e),
    }
}
