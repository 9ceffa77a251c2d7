//! How deep statements are.

ghost use Rattle.std.specs.Prelude.{◌≡◌, ◌^◌, ◌+◌, ◌-◌, min, map, option_map};
ghost use Rattle.stan_model_statements.specs.Depth as model;
ghost use Rattle.stan_model_statements.specs.TreeLists.{may_value, may_else, may_block};
ghost use Rattle.stan_syntax.specs.Depth.{greatest};
ghost use Rattle.stan_stmt_trees.specs.Depth.{body_depth, case_depth, catch_depth, class_member_depth, constant_depth, else_if_depth, parameter_depth, variable_depth};
ghost use Rattle.stan_stmt_trees.specs.Tree.{form_of, member_of, case_of, catch_of, class_member_of, constant_of, else_if_of, parameter_of, body_of, statement_of, value_of, variable_of};

use crate::statement::{
    Case, Catch, ClassMember, Constant, ElseIf, Form, Member, Parameter, ReadBody, Stmt, Value,
    Variable,
};
use sqlite_items::{Boxed, Items};

impl Value {
    /// How deep the expression is, with what the bodies of its closures hold, at most `u32::MAX`.
    pub fn depth(&self) -> u32
        ensures exact { result ≡ min (model.value_depth (value_of self.now)) (2 ^ 32 - 1) }
    {
        value_depth(self)
    }
}

impl Stmt {
    /// How deep the statement is, at most `u32::MAX`.
    ///
    /// - A pair of brackets, a block, and the braces of a `switch`, a class or adaptations are 1 deeper than what stands in them.
    /// - `if`, `while`, `do`, `for`, `foreach`, `switch` and `try` are 1 deeper than their deepest part.
    /// - Other statements are as deep as their deepest part.
    pub fn depth(&self) -> u32
        ensures exact { result ≡ min (model.depth (statement_of self.now)) (2 ^ 32 - 1) }
    {
        statement_depth(self)
    }
}

#[cycle(depths)]
fn value_depth(value: &Value) -> u32
    ensures { result ≡ min (model.value_depth (value_of value.now)) (2 ^ 32 - 1) }
{
    let own = value.tree.depth();
    bodies_depth(value.bodies.as_slice()).max(own)
}

#[cycle(depths)]
fn bodies_depth(bodies: &[ReadBody]) -> u32
    ensures { result ≡ min (greatest (λ x. body_depth (body_of x)) bodies.now) (2 ^ 32 - 1) }
{
    let mut most = 0;
    for body in bodies {
        most = read_body_depth(body).max(most);
    }
    most
}

// With the levels around its braces.
#[cycle(depths)]
fn read_body_depth(body: &ReadBody) -> u32
    ensures { result ≡ min (body_depth (body_of body.now)) (2 ^ 32 - 1) }
{
    statements_depth(body.statements.as_slice())
        .saturating_add(1)
        .saturating_add(body.levels)
}

#[cycle(depths)]
fn some_value_depth(value: &Option<Value>) -> u32
    ensures { result ≡ min (model.may_value_depth (may_value (option_map value_of value.now))) (2 ^ 32 - 1) }
{
    match value {
        None => 0,
        Some(value) => value_depth(value),
    }
}

#[cycle(depths)]
fn values_depth(values: &[Value]) -> u32
    ensures { result ≡ min (greatest (λ x. model.value_depth (value_of x)) values.now) (2 ^ 32 - 1) }
{
    let mut most = 0;
    for value in values {
        most = value_depth(value).max(most);
    }
    most
}

#[cycle(depths)]
fn statement_depth(statement: &Stmt) -> u32
    ensures { result ≡ min (model.depth (statement_of statement.now)) (2 ^ 32 - 1) }
{
    form_depth(&statement.form)
}

#[cycle(depths)]
fn form_depth(form: &Form) -> u32
    ensures { result ≡ min (model.form_depth (form_of form.now)) (2 ^ 32 - 1) }
{
    match form {
        Form::Block(statements) => statements_depth(statements.as_slice()).saturating_add(1),
        Form::Empty { .. } => 0,
        Form::Expression { value, .. } => value_depth(value),
        Form::Echo { values, .. } => values_depth(values.as_slice()),
        Form::Return { value, .. } => some_value_depth(value),
        Form::If {
            condition,
            then,
            else_ifs,
            otherwise,
        } => value_depth(condition)
            .saturating_add(1)
            .max(statement_depth(then.get()))
            .max(else_ifs_depth(else_ifs.as_slice()))
            .max(otherwise_depth(otherwise))
            .saturating_add(1),
        Form::While { condition, body } => value_depth(condition)
            .saturating_add(1)
            .max(statement_depth(body.get()))
            .saturating_add(1),
        Form::Do {
            body,
            condition,
            ..
        } => value_depth(condition)
            .saturating_add(1)
            .max(statement_depth(body.get()))
            .saturating_add(1),
        Form::For {
            start,
            conditions,
            step,
            body,
        } => values_depth(start.as_slice())
            .max(values_depth(conditions.as_slice()))
            .max(values_depth(step.as_slice()))
            .saturating_add(1)
            .max(statement_depth(body.get()))
            .saturating_add(1),
        Form::ForEach {
            subject,
            key,
            element,
            body,
            ..
        } => value_depth(subject)
            .max(some_value_depth(key))
            .max(value_depth(element))
            .saturating_add(1)
            .max(statement_depth(body.get()))
            .saturating_add(1),
        Form::Switch { subject, cases } => value_depth(subject)
            .max(cases_depth(cases.as_slice()))
            .saturating_add(1)
            .saturating_add(1),
        Form::Break { .. } => 0,
        Form::Continue { .. } => 0,
        Form::Try {
            body,
            catches,
            finally,
        } => statements_depth(body.as_slice())
            .saturating_add(1)
            .max(catches_depth(catches.as_slice()))
            .max(some_block_depth(finally))
            .saturating_add(1),
        Form::Unset { values, .. } => values_depth(values.as_slice()).saturating_add(1),
        Form::Global { .. } => 0,
        Form::Static { variables, .. } => variables_depth(variables.as_slice()),
        Form::Const { constants, .. } => constants_depth(constants.as_slice()),
        Form::Declare { .. } => 1,
        Form::Function {
            parameters,
            body,
            ..
        } => parameters_depth(parameters.as_slice())
            .max(statements_depth(body.as_slice()))
            .saturating_add(1),
        Form::Class { members, .. } => members_depth(members.as_slice()).saturating_add(1),
        Form::Interface { members, .. } => members_depth(members.as_slice()).saturating_add(1),
        Form::Trait { members, .. } => members_depth(members.as_slice()).saturating_add(1),
    }
}

#[cycle(depths)]
fn statements_depth(statements: &[Stmt]) -> u32
    ensures { result ≡ min (greatest (λ x. model.depth (statement_of x)) statements.now) (2 ^ 32 - 1) }
{
    let mut most = 0;
    for statement in statements {
        most = statement_depth(statement).max(most);
    }
    most
}

// With the braces.
#[cycle(depths)]
fn some_block_depth(block: &Option<Items<Stmt>>) -> u32
    ensures { result ≡ min (model.may_block_depth (may_block (option_map (map statement_of) block.now))) (2 ^ 32 - 1) }
{
    match block {
        None => 0,
        Some(statements) => {
            let list = statements.as_slice();
            let mut most = 0;
            for statement in list {
                most = statement_depth(statement).max(most);
            }
            most.saturating_add(1)
        }
    }
}

#[cycle(depths)]
fn otherwise_depth(otherwise: &Option<Boxed<Stmt>>) -> u32
    ensures { result ≡ min (model.else_depth (may_else (option_map statement_of otherwise.now))) (2 ^ 32 - 1) }
{
    match otherwise {
        None => 0,
        Some(statement) => statement_depth(statement.get()),
    }
}

#[cycle(depths)]
fn else_ifs_depth(else_ifs: &[ElseIf]) -> u32
    ensures { result ≡ min (greatest (λ x. else_if_depth (else_if_of x)) else_ifs.now) (2 ^ 32 - 1) }
{
    let mut most = 0;
    for else_if in else_ifs {
        most = one_else_if_depth(else_if).max(most);
    }
    most
}

#[cycle(depths)]
fn one_else_if_depth(else_if: &ElseIf) -> u32
    ensures { result ≡ min (else_if_depth (else_if_of else_if.now)) (2 ^ 32 - 1) }
{
    value_depth(&else_if.condition)
        .saturating_add(1)
        .max(statement_depth(&else_if.then))
}

#[cycle(depths)]
fn cases_depth(cases: &[Case]) -> u32
    ensures { result ≡ min (greatest (λ x. case_depth (case_of x)) cases.now) (2 ^ 32 - 1) }
{
    let mut most = 0;
    for case in cases {
        most = one_case_depth(case).max(most);
    }
    most
}

#[cycle(depths)]
fn one_case_depth(case: &Case) -> u32
    ensures { result ≡ min (case_depth (case_of case.now)) (2 ^ 32 - 1) }
{
    some_value_depth(&case.value).max(statements_depth(case.statements.as_slice()))
}

#[cycle(depths)]
fn catches_depth(catches: &[Catch]) -> u32
    ensures { result ≡ min (greatest (λ x. catch_depth (catch_of x)) catches.now) (2 ^ 32 - 1) }
{
    let mut most = 0;
    for catch in catches {
        most = one_catch_depth(catch).max(most);
    }
    most
}

#[cycle(depths)]
fn one_catch_depth(catch: &Catch) -> u32
    ensures { result ≡ min (catch_depth (catch_of catch.now)) (2 ^ 32 - 1) }
{
    statements_depth(catch.statements.as_slice()).saturating_add(1)
}

#[cycle(depths)]
fn variables_depth(variables: &[Variable]) -> u32
    ensures { result ≡ min (greatest (λ x. variable_depth (variable_of x)) variables.now) (2 ^ 32 - 1) }
{
    let mut most = 0;
    for variable in variables {
        most = one_variable_depth(variable).max(most);
    }
    most
}

#[cycle(depths)]
fn one_variable_depth(variable: &Variable) -> u32
    ensures { result ≡ min (variable_depth (variable_of variable.now)) (2 ^ 32 - 1) }
{
    some_value_depth(&variable.value)
}

#[cycle(depths)]
fn constants_depth(constants: &[Constant]) -> u32
    ensures { result ≡ min (greatest (λ x. constant_depth (constant_of x)) constants.now) (2 ^ 32 - 1) }
{
    let mut most = 0;
    for constant in constants {
        most = one_constant_depth(constant).max(most);
    }
    most
}

#[cycle(depths)]
fn one_constant_depth(constant: &Constant) -> u32
    ensures { result ≡ min (constant_depth (constant_of constant.now)) (2 ^ 32 - 1) }
{
    value_depth(&constant.value)
}

#[cycle(depths)]
fn parameters_depth(parameters: &[Parameter]) -> u32
    ensures { result ≡ min (greatest (λ x. parameter_depth (parameter_of x)) parameters.now) (2 ^ 32 - 1) }
{
    let mut most = 0;
    for parameter in parameters {
        most = one_parameter_depth(parameter).max(most);
    }
    most
}

#[cycle(depths)]
fn one_parameter_depth(parameter: &Parameter) -> u32
    ensures { result ≡ min (parameter_depth (parameter_of parameter.now)) (2 ^ 32 - 1) }
{
    some_value_depth(&parameter.default)
}

#[cycle(depths)]
fn members_depth(members: &[ClassMember]) -> u32
    ensures { result ≡ min (greatest (λ x. class_member_depth (class_member_of x)) members.now) (2 ^ 32 - 1) }
{
    let mut most = 0;
    for member in members {
        most = one_member_depth(member).max(most);
    }
    most
}

#[cycle(depths)]
fn one_member_depth(member: &ClassMember) -> u32
    ensures { result ≡ min (class_member_depth (class_member_of member.now)) (2 ^ 32 - 1) }
{
    member_depth(&member.form)
}

#[cycle(depths)]
fn member_depth(member: &Member) -> u32
    ensures { result ≡ min (model.member_depth (member_of member.now)) (2 ^ 32 - 1) }
{
    match member {
        Member::TraitUse { adaptations, .. } => match adaptations {
            None => 0,
            Some(_) => 1,
        },
        Member::Constants { constants, .. } => constants_depth(constants.as_slice()),
        Member::Method {
            parameters,
            body,
            ..
        } => parameters_depth(parameters.as_slice())
            .saturating_add(1)
            .max(some_block_depth(body)),
        Member::Properties { variables, .. } => variables_depth(variables.as_slice()),
    }
}
