//! Parameters and bodies of functions and methods.

use crate::statements::{statement, statements};
use crate::values::may_value;
use crate::words::{apart, may_word};
use sqlite_items::Items;
use stan_model_grammar::token::Token;
use stan_shown_trees::Printer;
use stan_stmt_trees::{Parameter, Stmt};
use stan_syntax::TypeTree;

/// A list of parameters, with a `,` behind the last or not.
#[cycle(shown)]
pub fn parameters(printer: &mut Printer<'_>, list: &[Parameter], comma: bool) {
    printer.put(" (");
    for part in list {
        printer.item();
        parameter(printer, part);
    }
    printer.flag(comma, ",");
    printer.put(")");
}

#[cycle(shown)]
fn parameter(printer: &mut Printer<'_>, part: &Parameter) {
    printer.check(begins(printer.source, part));
    may_word(printer, "", &part.visibility, " ");
    printer.declared("", &part.declared, " ");
    printer.flag(part.by_reference, "&");
    printer.flag(part.is_variadic, "...");
    printer.token(&part.name);
    may_value(printer, " = ", &part.default);
}

// Whether a parameter begins with its first token.
fn begins(source: &str, part: &Parameter) -> bool {
    if let Some(visibility) = &part.visibility {
        return part.first.start == visibility.start;
    }
    match &part.declared {
        Some(TypeTree::Nullable(question, _)) => part.first.start == question.start,
        Some(TypeTree::Union(name, _)) => part.first.start == name.start,
        None => {
            if part.by_reference {
                spells(source, &part.first, "&")
            } else if part.is_variadic {
                spells(source, &part.first, "...")
            } else {
                part.first.start == part.name.start
            }
        }
    }
}

fn spells(source: &str, token: &Token, text: &str) -> bool {
    match source.get(token.start as usize..token.end as usize) {
        None => false,
        Some(bytes) => bytes == text,
    }
}

/// A block.
#[cycle(shown)]
pub fn block(printer: &mut Printer<'_>, list: &[Stmt]) {
    printer.put("{");
    statements(printer, list);
    printer.put("}");
}

/// The statements of a block between two texts, or nothing.
#[cycle(shown)]
pub fn may_block(
    printer: &mut Printer<'_>,
    before: &str,
    list: &Option<Items<Stmt>>,
    behind: &str,
) {
    match list {
        None => {}
        Some(list) => {
            printer.put(before);
            let list = list.as_slice();
            for part in list {
                apart(printer);
                statement(printer, part);
            }
            printer.put(behind);
        }
    }
}
