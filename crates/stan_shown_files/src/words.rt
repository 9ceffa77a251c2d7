//! Tokens of statements, and what stands between their parts.

use stan_model_grammar::token::{Token, TokenKind};
use stan_shown_trees::Printer;

/// The front of a part, which begins with a token of this kind.
pub fn open(printer: &mut Printer<'_>, first: &Token, kind: TokenKind, text: &str) {
    printer.check(first.kind == kind);
    printer.put(text);
}

/// The end of a statement in round brackets.
pub fn close(printer: &mut Printer<'_>, end: &Token) {
    match end.kind {
        TokenKind::Semicolon => {}
        TokenKind::ClosingTag => printer.put(" ?>"),
        _ => printer.check(false),
    }
    printer.put(")");
}

/// What stands before a part in a row of parts.
pub fn apart(printer: &mut Printer<'_>) {
    match printer.text.as_bytes().last() {
        None | Some(b'{') => {}
        _ => printer.put(" "),
    }
}

/// Tokens with a `,` between them.
pub fn words(printer: &mut Printer<'_>, list: &[Token]) {
    for word in list {
        printer.item();
        printer.token(word);
    }
}

/// Tokens with this text between them.
pub fn words_between(printer: &mut Printer<'_>, list: &[Token], between: &str) {
    let mut before = "";
    for word in list {
        printer.put(before);
        printer.token(word);
        before = between;
    }
}

/// Tokens with this text behind each.
pub fn words_before(printer: &mut Printer<'_>, list: &[Token], behind: &str) {
    for word in list {
        printer.token(word);
        printer.put(behind);
    }
}

/// A token between two texts, or nothing.
pub fn may_word(printer: &mut Printer<'_>, before: &str, word: &Option<Token>, behind: &str) {
    match word {
        None => {}
        Some(word) => {
            printer.put(before);
            printer.token(word);
            printer.put(behind);
        }
    }
}

/// That modifiers begin with the first token of the whole, which is of this kind where there are none.
pub fn begin(printer: &mut Printer<'_>, first: &Token, modifiers: &[Token], kind: TokenKind) {
    match modifiers.first() {
        None => printer.check(first.kind == kind),
        Some(modifier) => printer.check(first.start == modifier.start),
    }
}
