//! What the documentation comments of a file belong to, as text.

use stan_base::OutOfMemory;
use stan_model_grammar::token::{Token, TokenKind};
use stan_shown_trees::Printer;
use stan_stmt_owners::file_owners;
use stan_stmt_trees::FileTree;
use std::alloc::Global;

/// Each documentation comment with the token with which begins what it belongs to, or `none`.
pub fn owners(alloc: Global, source: &str, tree: &FileTree) -> Result<Option<String>, OutOfMemory> {
    let owners = file_owners(alloc, tree)?;
    let mut printer = Printer {
        source,
        tokens: &[],
        text: String::new(alloc),
        is_whole: true,
    };
    for comment in tree.comments.as_slice() {
        if comment.kind == TokenKind::PhpDoc {
            show(&mut printer, comment, owner_of(comment, &owners));
        }
    }
    Ok(printer.whole())
}

fn show(printer: &mut Printer<'_>, comment: &Token, owner: Option<Token>) {
    printer.item();
    printer.token(comment);
    match owner {
        None => printer.put(": none"),
        Some(owner) => {
            printer.put(": ");
            printer.line(&owner, " ");
            printer.token(&owner);
        }
    }
}

// The first owner that begins behind a comment.
fn owner_of(comment: &Token, owners: &[Token]) -> Option<Token> {
    for owner in owners {
        if owner.start > comment.start {
            return Some(*owner);
        }
    }
    None
}
