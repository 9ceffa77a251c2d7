//! Expressions, with what the bodies of their closures hold.

use crate::statements::statements;
use stan_model_grammar::token::{Token, TokenKind};
use stan_shown_trees::Printer;
use stan_stmt_trees::{Constant, ReadBody, Value, Variable};

/// An expression with the bodies of its closures.
#[cycle(shown)]
pub fn value(printer: &mut Printer<'_>, part: &Value) {
    printer.expr(&part.tree);
    for body in part.bodies.as_slice() {
        read_body(printer, body);
    }
}

#[cycle(shown)]
fn read_body(printer: &mut Printer<'_>, body: &ReadBody) {
    printer.check(stands_in_braces(printer.tokens, body));
    printer.put(" {");
    printer.put_number(body.levels);
    printer.put(":");
    statements(printer, body.statements.as_slice());
    printer.put("}");
}

// Whether braces stand around the places of a body, and it begins with its first statement.
fn stands_in_braces(tokens: &[Token], body: &ReadBody) -> bool {
    let begins = match body.statements.as_slice().first() {
        None => body.from == body.to,
        Some(statement) => match tokens.get(body.from as usize) {
            None => false,
            Some(first) => first.start == statement.first.start,
        },
    };
    begins
        && is_kind(tokens, body.from.saturating_sub(1), TokenKind::LeftBrace)
        && is_kind(tokens, body.to, TokenKind::RightBrace)
}

fn is_kind(tokens: &[Token], place: u32, kind: TokenKind) -> bool {
    match tokens.get(place as usize) {
        None => false,
        Some(token) => token.kind == kind,
    }
}

/// Expressions with a `,` between them.
#[cycle(shown)]
pub fn values(printer: &mut Printer<'_>, list: &[Value]) {
    for part in list {
        printer.item();
        value(printer, part);
    }
}

/// An expression behind a text, or nothing.
#[cycle(shown)]
pub fn may_value(printer: &mut Printer<'_>, before: &str, part: &Option<Value>) {
    match part {
        None => {}
        Some(part) => {
            printer.put(before);
            value(printer, part);
        }
    }
}

/// Variables of `static`, or properties.
#[cycle(shown)]
pub fn variables(printer: &mut Printer<'_>, list: &[Variable]) {
    for variable in list {
        printer.item();
        printer.token(&variable.name);
        may_value(printer, " = ", &variable.value);
    }
}

#[cycle(shown)]
pub fn constants(printer: &mut Printer<'_>, list: &[Constant]) {
    for constant in list {
        printer.item();
        printer.token(&constant.name);
        printer.put(" = ");
        value(printer, &constant.value);
    }
}
