//! The walk through a file for what documentation comments can belong to.

ghost use Rattle.std.specs.Prelude.{◌≡◌, ◌++◌, ◌∷◌, [], IfOk, map, option_map};
ghost use Rattle.std.specs.List.{flat_map};
ghost use Rattle.stan_model_files.specs.Owners as model;
ghost use Rattle.stan_model_statements.specs.TreeLists.{may_value, may_else, may_block};
ghost use Rattle.stan_stmt_owners.specs.Owned as spec;
ghost use Rattle.stan_stmt_trees.specs.Files.{file_of, top_of};
ghost use Rattle.stan_stmt_trees.specs.Tree.{form_of, member_of, case_of, catch_of, class_member_of, constant_of, else_if_of, parameter_of, body_of, statement_of, value_of, variable_of};

use sqlite_items::{Boxed, Items};
use stan_base::OutOfMemory;
use stan_model_grammar::token::Token;
use stan_stmt_trees::{
    Case, Catch, ClassMember, Constant, ElseIf, FileTree, Form, Member, Parameter, ReadBody, Stmt,
    Top, Value, Variable,
};
use std::alloc::Global;

/// The first tokens of all that a documentation comment can belong to, from left to right: declarations and statements, also in blocks
/// and in the bodies of closures, members, and cases of a `switch`. Each part of the tree is looked at once.
#[tactic(auto, using(crate::proofs::PutLemmas::file_owners_are, crate::proofs::Lists::tops_flat))]
pub fn file_owners(alloc: Global, file: &FileTree) -> Result<Vec<Token>, OutOfMemory>
    ensures exact { IfOk result (λ found. found.items ≡ model.file_owners (file_of file.now).tops) }
{
    let mut found = Vec::new(alloc);
    tops_owned(file.tops.as_slice(), &mut found)?;
    Ok(found)
}

#[cycle(tops)]
fn tops_owned(tops: &[Top], found: &mut Vec<Token>) -> Result<(), OutOfMemory>
    ensures { IfOk result (λ u. found.new.items ≡ found.old.items ++ flat_map (λ x. spec.top_owned (top_of x)) tops.now) }
{
    for top in tops {
        top_owned(top, found)?;
    }
    Ok(())
}

#[cycle(tops)]
fn top_owned(top: &Top, found: &mut Vec<Token>) -> Result<(), OutOfMemory>
    ensures { IfOk result (λ u. found.new.items ≡ found.old.items ++ spec.top_owned (top_of top.now)) }
{
    match top {
        Top::Namespace { first, .. } => push(*first, found),
        Top::NamespaceBlock { first, tops, .. } => {
            push(*first, found)?;
            tops_owned(tops.as_slice(), found)
        }
        Top::Use { first, .. } => push(*first, found),
        Top::UseGroup { first, .. } => push(*first, found),
        Top::Plain(statement) => statement_owned(statement, found),
    }
}

fn push(first: Token, found: &mut Vec<Token>) -> Result<(), OutOfMemory>
    ensures { IfOk result (λ u. found.new.items ≡ found.old.items ++ first ∷ []) }
{
    found.push(first)?;
    Ok(())
}

#[cycle(owned)]
fn value_owned(value: &Value, found: &mut Vec<Token>) -> Result<(), OutOfMemory>
    ensures { IfOk result (λ u. found.new.items ≡ found.old.items ++ spec.value_owned (value_of value.now)) }
{
    bodies_owned(value.bodies.as_slice(), found)
}

#[cycle(owned)]
fn bodies_owned(bodies: &[ReadBody], found: &mut Vec<Token>) -> Result<(), OutOfMemory>
    ensures { IfOk result (λ u. found.new.items ≡ found.old.items ++ flat_map (λ x. spec.statements_owned (body_of x).statements) bodies.now) }
{
    for body in bodies {
        body_owned(body, found)?;
    }
    Ok(())
}

#[cycle(owned)]
fn body_owned(body: &ReadBody, found: &mut Vec<Token>) -> Result<(), OutOfMemory>
    ensures { IfOk result (λ u. found.new.items ≡ found.old.items ++ spec.statements_owned (body_of body.now).statements) }
{
    statements_owned(body.statements.as_slice(), found)
}

#[cycle(owned)]
fn may_value_owned(value: &Option<Value>, found: &mut Vec<Token>) -> Result<(), OutOfMemory>
    ensures { IfOk result (λ u. found.new.items ≡ found.old.items ++ spec.may_value_owned (may_value (option_map value_of value.now))) }
{
    match value {
        None => Ok(()),
        Some(value) => value_owned(value, found),
    }
}

#[cycle(owned)]
fn values_owned(values: &[Value], found: &mut Vec<Token>) -> Result<(), OutOfMemory>
    ensures { IfOk result (λ u. found.new.items ≡ found.old.items ++ flat_map (λ x. spec.value_owned (value_of x)) values.now) }
{
    for value in values {
        value_owned(value, found)?;
    }
    Ok(())
}

#[cycle(owned)]
fn statement_owned(statement: &Stmt, found: &mut Vec<Token>) -> Result<(), OutOfMemory>
    ensures { IfOk result (λ u. found.new.items ≡ found.old.items ++ spec.statement_owned (statement_of statement.now)) }
{
    push(statement.first, found)?;
    form_owned(&statement.form, found)
}

#[cycle(owned)]
fn form_owned(form: &Form, found: &mut Vec<Token>) -> Result<(), OutOfMemory>
    ensures { IfOk result (λ u. found.new.items ≡ found.old.items ++ spec.form_owned (form_of form.now)) }
{
    match form {
        Form::Block(statements) => statements_owned(statements.as_slice(), found),
        Form::Empty { .. } => Ok(()),
        Form::Expression { value, .. } => value_owned(value, found),
        Form::Echo { values, .. } => values_owned(values.as_slice(), found),
        Form::Return { value, .. } => may_value_owned(value, found),
        Form::If {
            condition,
            then,
            else_ifs,
            otherwise,
        } => {
            value_owned(condition, found)?;
            statement_owned(then.get(), found)?;
            else_ifs_owned(else_ifs.as_slice(), found)?;
            otherwise_owned(otherwise, found)
        }
        Form::While { condition, body } => {
            value_owned(condition, found)?;
            statement_owned(body.get(), found)
        }
        Form::Do {
            body,
            condition,
            ..
        } => {
            statement_owned(body.get(), found)?;
            value_owned(condition, found)
        }
        Form::For {
            start,
            conditions,
            step,
            body,
        } => {
            values_owned(start.as_slice(), found)?;
            values_owned(conditions.as_slice(), found)?;
            values_owned(step.as_slice(), found)?;
            statement_owned(body.get(), found)
        }
        Form::ForEach {
            subject,
            key,
            element,
            body,
            ..
        } => {
            value_owned(subject, found)?;
            may_value_owned(key, found)?;
            value_owned(element, found)?;
            statement_owned(body.get(), found)
        }
        Form::Switch { subject, cases } => {
            value_owned(subject, found)?;
            cases_owned(cases.as_slice(), found)
        }
        Form::Break { .. } => Ok(()),
        Form::Continue { .. } => Ok(()),
        Form::Try {
            body,
            catches,
            finally,
        } => {
            statements_owned(body.as_slice(), found)?;
            catches_owned(catches.as_slice(), found)?;
            may_block_owned(finally, found)
        }
        Form::Unset { values, .. } => values_owned(values.as_slice(), found),
        Form::Global { .. } => Ok(()),
        Form::Static { variables, .. } => variables_owned(variables.as_slice(), found),
        Form::Const { constants, .. } => constants_owned(constants.as_slice(), found),
        Form::Declare { .. } => Ok(()),
        Form::Function {
            parameters,
            body,
            ..
        } => {
            parameters_owned(parameters.as_slice(), found)?;
            statements_owned(body.as_slice(), found)
        }
        Form::Class { members, .. } => members_owned(members.as_slice(), found),
        Form::Interface { members, .. } => members_owned(members.as_slice(), found),
        Form::Trait { members, .. } => members_owned(members.as_slice(), found),
    }
}

#[cycle(owned)]
fn statements_owned(statements: &[Stmt], found: &mut Vec<Token>) -> Result<(), OutOfMemory>
    ensures { IfOk result (λ u. found.new.items ≡ found.old.items ++ flat_map (λ x. spec.statement_owned (statement_of x)) statements.now) }
{
    for statement in statements {
        statement_owned(statement, found)?;
    }
    Ok(())
}

#[cycle(owned)]
fn may_block_owned(block: &Option<Items<Stmt>>, found: &mut Vec<Token>) -> Result<(), OutOfMemory>
    ensures { IfOk result (λ u. found.new.items ≡ found.old.items ++ spec.may_block_owned (may_block (option_map (map statement_of) block.now))) }
{
    match block {
        None => Ok(()),
        Some(statements) => {
            let list = statements.as_slice();
            for statement in list {
                statement_owned(statement, found)?;
            }
            Ok(())
        }
    }
}

#[cycle(owned)]
fn otherwise_owned(
    otherwise: &Option<Boxed<Stmt>>,
    found: &mut Vec<Token>,
) -> Result<(), OutOfMemory>
    ensures { IfOk result (λ u. found.new.items ≡ found.old.items ++ spec.else_owned (may_else (option_map statement_of otherwise.now))) }
{
    match otherwise {
        None => Ok(()),
        Some(statement) => statement_owned(statement.get(), found),
    }
}

#[cycle(owned)]
fn else_ifs_owned(else_ifs: &[ElseIf], found: &mut Vec<Token>) -> Result<(), OutOfMemory>
    ensures { IfOk result (λ u. found.new.items ≡ found.old.items ++ flat_map (λ x. spec.else_if_owned (else_if_of x)) else_ifs.now) }
{
    for else_if in else_ifs {
        else_if_owned(else_if, found)?;
    }
    Ok(())
}

#[cycle(owned)]
fn else_if_owned(else_if: &ElseIf, found: &mut Vec<Token>) -> Result<(), OutOfMemory>
    ensures { IfOk result (λ u. found.new.items ≡ found.old.items ++ spec.else_if_owned (else_if_of else_if.now)) }
{
    value_owned(&else_if.condition, found)?;
    statement_owned(&else_if.then, found)
}

#[cycle(owned)]
fn cases_owned(cases: &[Case], found: &mut Vec<Token>) -> Result<(), OutOfMemory>
    ensures { IfOk result (λ u. found.new.items ≡ found.old.items ++ flat_map (λ x. spec.case_owned (case_of x)) cases.now) }
{
    for case in cases {
        case_owned(case, found)?;
    }
    Ok(())
}

#[cycle(owned)]
fn case_owned(case: &Case, found: &mut Vec<Token>) -> Result<(), OutOfMemory>
    ensures { IfOk result (λ u. found.new.items ≡ found.old.items ++ spec.case_owned (case_of case.now)) }
{
    push(case.first, found)?;
    may_value_owned(&case.value, found)?;
    statements_owned(case.statements.as_slice(), found)
}

#[cycle(owned)]
fn catches_owned(catches: &[Catch], found: &mut Vec<Token>) -> Result<(), OutOfMemory>
    ensures { IfOk result (λ u. found.new.items ≡ found.old.items ++ flat_map (λ x. spec.statements_owned (catch_of x).statements) catches.now) }
{
    for catch in catches {
        catch_owned(catch, found)?;
    }
    Ok(())
}

#[cycle(owned)]
fn catch_owned(catch: &Catch, found: &mut Vec<Token>) -> Result<(), OutOfMemory>
    ensures { IfOk result (λ u. found.new.items ≡ found.old.items ++ spec.statements_owned (catch_of catch.now).statements) }
{
    statements_owned(catch.statements.as_slice(), found)
}

#[cycle(owned)]
fn variables_owned(variables: &[Variable], found: &mut Vec<Token>) -> Result<(), OutOfMemory>
    ensures { IfOk result (λ u. found.new.items ≡ found.old.items ++ flat_map (λ x. spec.may_value_owned (variable_of x).value) variables.now) }
{
    for variable in variables {
        variable_owned(variable, found)?;
    }
    Ok(())
}

#[cycle(owned)]
fn variable_owned(variable: &Variable, found: &mut Vec<Token>) -> Result<(), OutOfMemory>
    ensures { IfOk result (λ u. found.new.items ≡ found.old.items ++ spec.may_value_owned (variable_of variable.now).value) }
{
    may_value_owned(&variable.value, found)
}

#[cycle(owned)]
fn constants_owned(constants: &[Constant], found: &mut Vec<Token>) -> Result<(), OutOfMemory>
    ensures { IfOk result (λ u. found.new.items ≡ found.old.items ++ flat_map (λ x. spec.value_owned (constant_of x).value) constants.now) }
{
    for constant in constants {
        constant_owned(constant, found)?;
    }
    Ok(())
}

#[cycle(owned)]
fn constant_owned(constant: &Constant, found: &mut Vec<Token>) -> Result<(), OutOfMemory>
    ensures { IfOk result (λ u. found.new.items ≡ found.old.items ++ spec.value_owned (constant_of constant.now).value) }
{
    value_owned(&constant.value, found)
}

#[cycle(owned)]
fn parameters_owned(parameters: &[Parameter], found: &mut Vec<Token>) -> Result<(), OutOfMemory>
    ensures { IfOk result (λ u. found.new.items ≡ found.old.items ++ flat_map (λ x. spec.may_value_owned (parameter_of x).default) parameters.now) }
{
    for parameter in parameters {
        parameter_owned(parameter, found)?;
    }
    Ok(())
}

#[cycle(owned)]
fn parameter_owned(parameter: &Parameter, found: &mut Vec<Token>) -> Result<(), OutOfMemory>
    ensures { IfOk result (λ u. found.new.items ≡ found.old.items ++ spec.may_value_owned (parameter_of parameter.now).default) }
{
    may_value_owned(&parameter.default, found)
}

#[cycle(owned)]
fn members_owned(members: &[ClassMember], found: &mut Vec<Token>) -> Result<(), OutOfMemory>
    ensures { IfOk result (λ u. found.new.items ≡ found.old.items ++ flat_map (λ x. spec.class_member_owned (class_member_of x)) members.now) }
{
    for member in members {
        class_member_owned(member, found)?;
    }
    Ok(())
}

#[cycle(owned)]
fn class_member_owned(member: &ClassMember, found: &mut Vec<Token>) -> Result<(), OutOfMemory>
    ensures { IfOk result (λ u. found.new.items ≡ found.old.items ++ spec.class_member_owned (class_member_of member.now)) }
{
    push(member.first, found)?;
    member_owned(&member.form, found)
}

#[cycle(owned)]
fn member_owned(member: &Member, found: &mut Vec<Token>) -> Result<(), OutOfMemory>
    ensures { IfOk result (λ u. found.new.items ≡ found.old.items ++ spec.member_owned (member_of member.now)) }
{
    match member {
        Member::TraitUse { .. } => Ok(()),
        Member::Constants { constants, .. } => constants_owned(constants.as_slice(), found),
        Member::Method {
            parameters,
            body,
            ..
        } => {
            parameters_owned(parameters.as_slice(), found)?;
            may_block_owned(body, found)
        }
        Member::Properties { variables, .. } => variables_owned(variables.as_slice(), found),
    }
}
