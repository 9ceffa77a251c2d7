//! The walk through a statement for the names that it holds.

ghost use Rattle.std.specs.Prelude.{◌≡◌, ◌++◌, IfOk, map, option_map, true};
ghost use Rattle.std.specs.List.{flat_map};
ghost use Rattle.stan_model_statements.specs.TreeLists.{may_value, may_else, may_block};
ghost use Rattle.stan_model_walk.specs.Findings as findings;
ghost use Rattle.stan_model_walk.specs.Findings.{found_in};
ghost use Rattle.stan_model_walk.specs.Nodes as model;
ghost use Rattle.stan_expr_walk.specs.Found.{found_of};
ghost use Rattle.stan_stmt_trees.specs.Tree.{form_of, member_of, case_of, catch_of, class_member_of, constant_of, else_if_of, parameter_of, body_of, statement_of, value_of, variable_of};

use crate::own::own_found;
use sqlite_items::{Boxed, Items};
use stan_base::OutOfMemory;
use stan_expr_walk::{Finding, Found, expr_found, push};
use stan_stmt_trees::{
    Case, Catch, ClassMember, Constant, ElseIf, Form, Member, Parameter, ReadBody, Stmt, Value,
    Variable,
};
use std::alloc::Global;

/// The names of functions and constants in a statement, in declarations and elsewhere, from left to right: what the bodies of an
/// expression's closures hold stands behind the expression. Each part of the tree is looked at once.
pub fn findings(alloc: Global, statement: &Stmt) -> Result<Vec<Found>, OutOfMemory>
    ensures exact { IfOk result (λ found. map found_of found.items ≡ findings.findings (statement_of statement.now)) }
{
    let mut found = Vec::new(alloc);
    statement_found(statement, false, &mut found)?;
    Ok(found)
}

#[cycle(walk)]
fn value_found(value: &Value, inner: bool, found: &mut Vec<Found>) -> Result<(), OutOfMemory>
    ensures { IfOk result (λ u. map found_of found.new.items ≡ map found_of found.old.items ++ model.in_value found_in inner (value_of value.now)) }
{
    expr_found(&value.tree, inner, found)?;
    bodies_found(value.bodies.as_slice(), found)
}

#[cycle(walk)]
fn bodies_found(bodies: &[ReadBody], found: &mut Vec<Found>) -> Result<(), OutOfMemory>
    ensures { IfOk result (λ u. map found_of found.new.items ≡ map found_of found.old.items ++ flat_map (λ x. model.in_statements found_in true (body_of x).statements) bodies.now) }
{
    for body in bodies {
        body_found(body, found)?;
    }
    Ok(())
}

#[cycle(walk)]
fn body_found(body: &ReadBody, found: &mut Vec<Found>) -> Result<(), OutOfMemory>
    ensures { IfOk result (λ u. map found_of found.new.items ≡ map found_of found.old.items ++ model.in_statements found_in true (body_of body.now).statements) }
{
    statements_found(body.statements.as_slice(), true, found)
}

#[cycle(walk)]
fn may_value_found(
    value: &Option<Value>,
    inner: bool,
    found: &mut Vec<Found>,
) -> Result<(), OutOfMemory>
    ensures { IfOk result (λ u. map found_of found.new.items ≡ map found_of found.old.items ++ model.in_may_value found_in inner (may_value (option_map value_of value.now))) }
{
    match value {
        None => Ok(()),
        Some(value) => value_found(value, inner, found),
    }
}

#[cycle(walk)]
fn values_found(values: &[Value], inner: bool, found: &mut Vec<Found>) -> Result<(), OutOfMemory>
    ensures { IfOk result (λ u. map found_of found.new.items ≡ map found_of found.old.items ++ flat_map (λ x. model.in_value found_in inner (value_of x)) values.now) }
{
    for value in values {
        value_found(value, inner, found)?;
    }
    Ok(())
}

#[cycle(walk)]
fn statement_found(statement: &Stmt, inner: bool, found: &mut Vec<Found>) -> Result<(), OutOfMemory>
    ensures { IfOk result (λ u. map found_of found.new.items ≡ map found_of found.old.items ++ model.in_statement found_in inner (statement_of statement.now)) }
{
    own_found(&statement.form, inner, found)?;
    form_found(&statement.form, inner, found)
}

#[cycle(walk)]
fn form_found(form: &Form, inner: bool, found: &mut Vec<Found>) -> Result<(), OutOfMemory>
    ensures { IfOk result (λ u. map found_of found.new.items ≡ map found_of found.old.items ++ model.in_statement_form found_in inner (form_of form.now)) }
{
    match form {
        Form::Block(statements) => statements_found(statements.as_slice(), inner, found),
        Form::Empty { .. } => Ok(()),
        Form::Expression { value, .. } => value_found(value, inner, found),
        Form::Echo { values, .. } => values_found(values.as_slice(), inner, found),
        Form::Return { value, .. } => may_value_found(value, inner, found),
        Form::If {
            condition,
            then,
            else_ifs,
            otherwise,
        } => {
            value_found(condition, inner, found)?;
            statement_found(then.get(), inner, found)?;
            else_ifs_found(else_ifs.as_slice(), inner, found)?;
            otherwise_found(otherwise, inner, found)
        }
        Form::While { condition, body } => {
            value_found(condition, inner, found)?;
            statement_found(body.get(), inner, found)
        }
        Form::Do {
            body,
            condition,
            ..
        } => {
            statement_found(body.get(), inner, found)?;
            value_found(condition, inner, found)
        }
        Form::For {
            start,
            conditions,
            step,
            body,
        } => {
            values_found(start.as_slice(), inner, found)?;
            values_found(conditions.as_slice(), inner, found)?;
            values_found(step.as_slice(), inner, found)?;
            statement_found(body.get(), inner, found)
        }
        Form::ForEach {
            subject,
            key,
            element,
            body,
            ..
        } => {
            value_found(subject, inner, found)?;
            may_value_found(key, inner, found)?;
            value_found(element, inner, found)?;
            statement_found(body.get(), inner, found)
        }
        Form::Switch { subject, cases } => {
            value_found(subject, inner, found)?;
            cases_found(cases.as_slice(), inner, found)
        }
        Form::Break { .. } => Ok(()),
        Form::Continue { .. } => Ok(()),
        Form::Try {
            body,
            catches,
            finally,
        } => {
            statements_found(body.as_slice(), inner, found)?;
            catches_found(catches.as_slice(), inner, found)?;
            may_block_found(finally, inner, found)
        }
        Form::Unset { values, .. } => values_found(values.as_slice(), inner, found),
        Form::Global { .. } => Ok(()),
        Form::Static { variables, .. } => variables_found(variables.as_slice(), inner, found),
        Form::Const { constants, .. } => constants_found(constants.as_slice(), inner, found),
        Form::Declare { .. } => Ok(()),
        Form::Function {
            parameters,
            body,
            ..
        } => {
            parameters_found(parameters.as_slice(), found)?;
            statements_found(body.as_slice(), true, found)
        }
        Form::Class { members, .. } => members_found(members.as_slice(), found),
        Form::Interface { members, .. } => members_found(members.as_slice(), found),
        Form::Trait { members, .. } => members_found(members.as_slice(), found),
    }
}

#[cycle(walk)]
fn statements_found(
    statements: &[Stmt],
    inner: bool,
    found: &mut Vec<Found>,
) -> Result<(), OutOfMemory>
    ensures { IfOk result (λ u. map found_of found.new.items ≡ map found_of found.old.items ++ flat_map (λ x. model.in_statement found_in inner (statement_of x)) statements.now) }
{
    for statement in statements {
        statement_found(statement, inner, found)?;
    }
    Ok(())
}

#[cycle(walk)]
fn may_block_found(
    block: &Option<Items<Stmt>>,
    inner: bool,
    found: &mut Vec<Found>,
) -> Result<(), OutOfMemory>
    ensures { IfOk result (λ u. map found_of found.new.items ≡ map found_of found.old.items ++ model.in_may_block found_in inner (may_block (option_map (map statement_of) block.now))) }
{
    match block {
        None => Ok(()),
        Some(statements) => {
            let list = statements.as_slice();
            for statement in list {
                statement_found(statement, inner, found)?;
            }
            Ok(())
        }
    }
}

#[cycle(walk)]
fn otherwise_found(
    otherwise: &Option<Boxed<Stmt>>,
    inner: bool,
    found: &mut Vec<Found>,
) -> Result<(), OutOfMemory>
    ensures { IfOk result (λ u. map found_of found.new.items ≡ map found_of found.old.items ++ model.in_else found_in inner (may_else (option_map statement_of otherwise.now))) }
{
    match otherwise {
        None => Ok(()),
        Some(statement) => statement_found(statement.get(), inner, found),
    }
}

#[cycle(walk)]
fn else_ifs_found(
    else_ifs: &[ElseIf],
    inner: bool,
    found: &mut Vec<Found>,
) -> Result<(), OutOfMemory>
    ensures { IfOk result (λ u. map found_of found.new.items ≡ map found_of found.old.items ++ flat_map (λ x. model.in_else_if found_in inner (else_if_of x)) else_ifs.now) }
{
    for else_if in else_ifs {
        else_if_found(else_if, inner, found)?;
    }
    Ok(())
}

#[cycle(walk)]
fn else_if_found(else_if: &ElseIf, inner: bool, found: &mut Vec<Found>) -> Result<(), OutOfMemory>
    ensures { IfOk result (λ u. map found_of found.new.items ≡ map found_of found.old.items ++ model.in_else_if found_in inner (else_if_of else_if.now)) }
{
    value_found(&else_if.condition, inner, found)?;
    statement_found(&else_if.then, inner, found)
}

#[cycle(walk)]
fn cases_found(cases: &[Case], inner: bool, found: &mut Vec<Found>) -> Result<(), OutOfMemory>
    ensures { IfOk result (λ u. map found_of found.new.items ≡ map found_of found.old.items ++ flat_map (λ x. model.in_case found_in inner (case_of x)) cases.now) }
{
    for case in cases {
        case_found(case, inner, found)?;
    }
    Ok(())
}

#[cycle(walk)]
fn case_found(case: &Case, inner: bool, found: &mut Vec<Found>) -> Result<(), OutOfMemory>
    ensures { IfOk result (λ u. map found_of found.new.items ≡ map found_of found.old.items ++ model.in_case found_in inner (case_of case.now)) }
{
    may_value_found(&case.value, inner, found)?;
    statements_found(case.statements.as_slice(), inner, found)
}

#[cycle(walk)]
fn catches_found(catches: &[Catch], inner: bool, found: &mut Vec<Found>) -> Result<(), OutOfMemory>
    ensures { IfOk result (λ u. map found_of found.new.items ≡ map found_of found.old.items ++ flat_map (λ x. model.in_statements found_in inner (catch_of x).statements) catches.now) }
{
    for catch in catches {
        catch_found(catch, inner, found)?;
    }
    Ok(())
}

#[cycle(walk)]
fn catch_found(catch: &Catch, inner: bool, found: &mut Vec<Found>) -> Result<(), OutOfMemory>
    ensures { IfOk result (λ u. map found_of found.new.items ≡ map found_of found.old.items ++ model.in_statements found_in inner (catch_of catch.now).statements) }
{
    statements_found(catch.statements.as_slice(), inner, found)
}

#[cycle(walk)]
fn variables_found(
    variables: &[Variable],
    inner: bool,
    found: &mut Vec<Found>,
) -> Result<(), OutOfMemory>
    ensures { IfOk result (λ u. map found_of found.new.items ≡ map found_of found.old.items ++ flat_map (λ x. model.in_may_value found_in inner (variable_of x).value) variables.now) }
{
    for variable in variables {
        variable_found(variable, inner, found)?;
    }
    Ok(())
}

#[cycle(walk)]
fn variable_found(
    variable: &Variable,
    inner: bool,
    found: &mut Vec<Found>,
) -> Result<(), OutOfMemory>
    ensures { IfOk result (λ u. map found_of found.new.items ≡ map found_of found.old.items ++ model.in_may_value found_in inner (variable_of variable.now).value) }
{
    may_value_found(&variable.value, inner, found)
}

#[cycle(walk)]
fn constants_found(
    constants: &[Constant],
    inner: bool,
    found: &mut Vec<Found>,
) -> Result<(), OutOfMemory>
    ensures { IfOk result (λ u. map found_of found.new.items ≡ map found_of found.old.items ++ flat_map (λ x. model.in_constant found_in inner (constant_of x)) constants.now) }
{
    for constant in constants {
        constant_found(constant, inner, found)?;
    }
    Ok(())
}

#[cycle(walk)]
fn constant_found(
    constant: &Constant,
    inner: bool,
    found: &mut Vec<Found>,
) -> Result<(), OutOfMemory>
    ensures { IfOk result (λ u. map found_of found.new.items ≡ map found_of found.old.items ++ model.in_constant found_in inner (constant_of constant.now)) }
{
    push(inner, Finding::DeclaresConstant(constant.name), found)?;
    value_found(&constant.value, inner, found)
}

#[cycle(walk)]
fn parameters_found(parameters: &[Parameter], found: &mut Vec<Found>) -> Result<(), OutOfMemory>
    ensures { IfOk result (λ u. map found_of found.new.items ≡ map found_of found.old.items ++ flat_map (λ x. model.in_may_value found_in true (parameter_of x).default) parameters.now) }
{
    for parameter in parameters {
        parameter_found(parameter, found)?;
    }
    Ok(())
}

#[cycle(walk)]
fn parameter_found(parameter: &Parameter, found: &mut Vec<Found>) -> Result<(), OutOfMemory>
    ensures { IfOk result (λ u. map found_of found.new.items ≡ map found_of found.old.items ++ model.in_may_value found_in true (parameter_of parameter.now).default) }
{
    may_value_found(&parameter.default, true, found)
}

#[cycle(walk)]
fn members_found(members: &[ClassMember], found: &mut Vec<Found>) -> Result<(), OutOfMemory>
    ensures { IfOk result (λ u. map found_of found.new.items ≡ map found_of found.old.items ++ flat_map (λ x. model.in_class_member found_in (class_member_of x)) members.now) }
{
    for member in members {
        class_member_found(member, found)?;
    }
    Ok(())
}

#[cycle(walk)]
fn class_member_found(member: &ClassMember, found: &mut Vec<Found>) -> Result<(), OutOfMemory>
    ensures { IfOk result (λ u. map found_of found.new.items ≡ map found_of found.old.items ++ model.in_class_member found_in (class_member_of member.now)) }
{
    member_found(&member.form, found)
}

#[cycle(walk)]
fn member_found(member: &Member, found: &mut Vec<Found>) -> Result<(), OutOfMemory>
    ensures { IfOk result (λ u. map found_of found.new.items ≡ map found_of found.old.items ++ model.in_member found_in (member_of member.now)) }
{
    match member {
        Member::TraitUse { .. } => Ok(()),
        Member::Constants { constants, .. } => constants_found(constants.as_slice(), true, found),
        Member::Method {
            parameters,
            body,
            ..
        } => {
            parameters_found(parameters.as_slice(), found)?;
            may_block_found(body, true, found)
        }
        Member::Properties { variables, .. } => variables_found(variables.as_slice(), true, found),
    }
}
