//! Statements.

use crate::functions::{block, may_block, parameters};
use crate::members::members;
use crate::parts::{cases, catches, else_ifs, otherwise};
use crate::values::{constants, may_value, value, values, variables};
use crate::words::{apart, begin, close, may_word, open, words, words_before};
use stan_model_grammar::token::{Token, TokenKind};
use stan_shown_trees::Printer;
use stan_stmt_trees::{Form, Stmt};

/// Statements in a row.
#[cycle(shown)]
pub fn statements(printer: &mut Printer<'_>, list: &[Stmt]) {
    for part in list {
        apart(printer);
        statement(printer, part);
    }
}

/// A statement behind the line of its first token.
#[cycle(shown)]
pub fn statement(printer: &mut Printer<'_>, part: &Stmt) {
    printer.line(&part.first, " ");
    form(printer, &part.first, &part.form);
}

#[cycle(shown)]
fn form(printer: &mut Printer<'_>, first: &Token, part: &Form) {
    match part {
        Form::Block(list) => {
            open(printer, first, TokenKind::LeftBrace, "");
            block(printer, list.as_slice());
        }
        Form::Empty { end } => {
            printer.check(first.start == end.start);
            printer.token(end);
        }
        Form::Expression { value: part, end } => {
            printer.check(first.start == part.tree.first.start);
            value(printer, part);
            printer.token(end);
        }
        Form::Echo { values: list, end } => {
            open(printer, first, TokenKind::Echo, "(echo ");
            values(printer, list.as_slice());
            close(printer, end);
        }
        Form::Return { value: part, end } => {
            open(printer, first, TokenKind::Return, "(return");
            may_value(printer, " ", part);
            close(printer, end);
        }
        Form::If {
            condition,
            then,
            else_ifs: list,
            otherwise: part,
        } => {
            open(printer, first, TokenKind::If, "(if ");
            value(printer, condition);
            inner(printer, then.get());
            else_ifs(printer, list.as_slice());
            otherwise(printer, part);
            printer.put(")");
        }
        Form::While { condition, body } => {
            open(printer, first, TokenKind::While, "(while ");
            value(printer, condition);
            inner(printer, body.get());
            printer.put(")");
        }
        Form::Do {
            body,
            condition,
            end,
        } => {
            open(printer, first, TokenKind::Do, "(do");
            inner(printer, body.get());
            printer.put(" while ");
            value(printer, condition);
            close(printer, end);
        }
        Form::For {
            start,
            conditions,
            step,
            body,
        } => {
            open(printer, first, TokenKind::For, "(for [");
            values(printer, start.as_slice());
            printer.put("] [");
            values(printer, conditions.as_slice());
            printer.put("] [");
            values(printer, step.as_slice());
            printer.put("]");
            inner(printer, body.get());
            printer.put(")");
        }
        Form::ForEach {
            subject,
            key,
            by_reference,
            element,
            body,
        } => {
            open(printer, first, TokenKind::ForEach, "(foreach ");
            value(printer, subject);
            printer.put(" as ");
            if let Some(key) = key {
                value(printer, key);
                printer.put(" => ");
            }
            printer.flag(*by_reference, "&");
            value(printer, element);
            inner(printer, body.get());
            printer.put(")");
        }
        Form::Switch {
            subject,
            cases: list,
        } => {
            open(printer, first, TokenKind::Switch, "(switch ");
            value(printer, subject);
            cases(printer, list.as_slice());
            printer.put(")");
        }
        Form::Break { levels, end } => {
            open(printer, first, TokenKind::Break, "(break");
            may_word(printer, " ", levels, "");
            close(printer, end);
        }
        Form::Continue { levels, end } => {
            open(printer, first, TokenKind::Continue, "(continue");
            may_word(printer, " ", levels, "");
            close(printer, end);
        }
        Form::Try {
            body,
            catches: list,
            finally: part,
        } => {
            open(printer, first, TokenKind::Try, "(try ");
            block(printer, body.as_slice());
            catches(printer, list.as_slice());
            may_block(printer, " (finally {", part, "})");
            printer.put(")");
        }
        Form::Unset {
            values: list,
            comma,
            end,
        } => {
            open(printer, first, TokenKind::Unset, "(unset ");
            values(printer, list.as_slice());
            printer.flag(*comma, ",");
            close(printer, end);
        }
        Form::Global {
            variables: list,
            end,
        } => {
            open(printer, first, TokenKind::Global, "(global ");
            words(printer, list.as_slice());
            close(printer, end);
        }
        Form::Static {
            variables: list,
            end,
        } => {
            open(printer, first, TokenKind::Static, "(static ");
            variables(printer, list.as_slice());
            close(printer, end);
        }
        Form::Const {
            constants: list,
            end,
        } => {
            open(printer, first, TokenKind::Const, "(const ");
            constants(printer, list.as_slice());
            close(printer, end);
        }
        Form::Declare { name, number, end } => {
            open(printer, first, TokenKind::Declare, "(declare ");
            printer.token(name);
            printer.put(" = ");
            printer.token(number);
            close(printer, end);
        }
        Form::Function {
            by_reference,
            name,
            parameters: list,
            comma,
            result: returned,
            body,
        } => {
            open(printer, first, TokenKind::Function, "(function ");
            printer.flag(*by_reference, "&");
            printer.token(name);
            parameters(printer, list.as_slice(), *comma);
            printer.declared(": ", returned, "");
            printer.put(" ");
            block(printer, body.as_slice());
            printer.put(")");
        }
        Form::Class {
            modifiers,
            name,
            parent,
            interfaces,
            members: list,
        } => {
            begin(printer, first, modifiers.as_slice(), TokenKind::Class);
            printer.put("(");
            words_before(printer, modifiers.as_slice(), " ");
            printer.put("class ");
            printer.token(name);
            may_word(printer, " extends ", parent, "");
            names(printer, " implements ", interfaces.as_slice());
            members(printer, list.as_slice());
            printer.put(")");
        }
        Form::Interface {
            name,
            parents,
            members: list,
        } => {
            open(printer, first, TokenKind::Interface, "(interface ");
            printer.token(name);
            names(printer, " extends ", parents.as_slice());
            members(printer, list.as_slice());
            printer.put(")");
        }
        Form::Trait {
            name,
            members: list,
        } => {
            open(printer, first, TokenKind::Trait, "(trait ");
            printer.token(name);
            members(printer, list.as_slice());
            printer.put(")");
        }
    }
}

// A statement in another one.
#[cycle(shown)]
fn inner(printer: &mut Printer<'_>, part: &Stmt) {
    printer.put(" ");
    statement(printer, part);
}

// Names behind a word, or nothing.
fn names(printer: &mut Printer<'_>, before: &str, list: &[Token]) {
    if !list.is_empty() {
        printer.put(before);
        words(printer, list);
    }
}
