//! Parts of statements that have a word of their own: `elseif`, `else`, `case`, `default`, `catch` and `finally`.

use crate::functions::block;
use crate::statements::{statement, statements};
use crate::values::value;
use crate::words::{may_word, open, words_between};
use sqlite_items::Boxed;
use stan_model_grammar::token::TokenKind;
use stan_shown_trees::Printer;
use stan_stmt_trees::{Case, Catch, ElseIf, Stmt};

#[cycle(shown)]
pub fn else_ifs(printer: &mut Printer<'_>, list: &[ElseIf]) {
    for part in list {
        printer.put(" ");
        printer.line(&part.first, " ");
        open(printer, &part.first, TokenKind::ElseIf, "(elseif ");
        value(printer, &part.condition);
        printer.put(" ");
        statement(printer, &part.then);
        printer.put(")");
    }
}

/// An `else`, or nothing.
#[cycle(shown)]
pub fn otherwise(printer: &mut Printer<'_>, part: &Option<Boxed<Stmt>>) {
    match part {
        None => {}
        Some(part) => {
            printer.put(" (else ");
            statement(printer, part.get());
            printer.put(")");
        }
    }
}

#[cycle(shown)]
pub fn cases(printer: &mut Printer<'_>, list: &[Case]) {
    for part in list {
        printer.put(" ");
        printer.line(&part.first, " ");
        case(printer, part);
    }
}

#[cycle(shown)]
fn case(printer: &mut Printer<'_>, part: &Case) {
    match &part.value {
        None => open(printer, &part.first, TokenKind::Default, "(default"),
        Some(compared) => {
            open(printer, &part.first, TokenKind::Case, "(case ");
            value(printer, compared);
        }
    }
    printer.token(&part.mark);
    statements(printer, part.statements.as_slice());
    printer.put(")");
}

#[cycle(shown)]
pub fn catches(printer: &mut Printer<'_>, list: &[Catch]) {
    for part in list {
        printer.put(" ");
        printer.line(&part.first, " ");
        open(printer, &part.first, TokenKind::Catch, "(catch ");
        words_between(printer, part.classes.as_slice(), "|");
        may_word(printer, " ", &part.variable, "");
        printer.put(" ");
        block(printer, part.statements.as_slice());
        printer.put(")");
    }
}
