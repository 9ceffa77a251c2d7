//! Files: declarations and statements in a row, and the comments of the file.

use crate::statements::statement;
use crate::words::{apart, close, may_word, open};
use stan_model_grammar::token::{Token, TokenKind};
use stan_shown_trees::Printer;
use stan_stmt_trees::{FileTree, Top, Used};
use std::alloc::Global;

/// The text of a tree, if it is whole: each part begins with its first token. `code` are the tokens of the source without comments and
/// attributes.
pub fn file_text(alloc: Global, source: &str, code: &[Token], file: &FileTree) -> Option<String> {
    let mut printer = Printer {
        source,
        tokens: code,
        text: String::new(alloc),
        is_whole: true,
    };
    tops(&mut printer, file.tops.as_slice());
    comments(&mut printer, file.comments.as_slice());
    printer.whole()
}

fn comments(printer: &mut Printer<'_>, list: &[Token]) {
    for comment in list {
        apart(printer);
        printer.put("<");
        printer.line(comment, " ");
        printer.flag(comment.kind == TokenKind::PhpDoc, "doc ");
        printer.token(comment);
        printer.put(">");
    }
}

#[cycle(tops)]
fn tops(printer: &mut Printer<'_>, list: &[Top]) {
    for part in list {
        apart(printer);
        top(printer, part);
    }
}

#[cycle(tops)]
fn top(printer: &mut Printer<'_>, part: &Top) {
    match part {
        Top::Namespace { first, name, end } => {
            begin_top(printer, first, TokenKind::Namespace, "(namespace ");
            printer.token(name);
            close(printer, end);
        }
        Top::NamespaceBlock {
            first,
            name,
            tops: list,
        } => {
            begin_top(printer, first, TokenKind::Namespace, "(namespace ");
            may_word(printer, "", name, " ");
            printer.put("{");
            tops(printer, list.as_slice());
            printer.put("})");
        }
        Top::Use {
            first,
            kind,
            items,
            end,
        } => {
            begin_top(printer, first, TokenKind::Use, "(use ");
            may_word(printer, "", kind, ": ");
            used(printer, items.as_slice());
            close(printer, end);
        }
        Top::UseGroup {
            first,
            kind,
            name,
            items,
            comma,
            end,
        } => {
            begin_top(printer, first, TokenKind::Use, "(use ");
            may_word(printer, "", kind, ": ");
            printer.token(name);
            printer.put("\\{");
            used(printer, items.as_slice());
            printer.flag(*comma, ",");
            printer.put("}");
            close(printer, end);
        }
        Top::Plain(part) => statement(printer, part),
    }
}

fn begin_top(printer: &mut Printer<'_>, first: &Token, kind: TokenKind, text: &str) {
    printer.line(first, " ");
    open(printer, first, kind, text);
}

fn used(printer: &mut Printer<'_>, items: &[Used]) {
    for item in items {
        printer.item();
        may_word(printer, "", &item.kind, " ");
        printer.token(&item.name);
        may_word(printer, " as ", &item.alias, "");
    }
}
