//! Plain tests of texts, heredocs and comments, by all their bytes and those behind them.

use super::words::{begins_word, continues_word, is_integer, is_variable, is_word};
use stan_model_grammar::token::TokenKind;

// Whether what stands behind some bytes of a text is escaped: an odd number of `\` ends them.
fn escapes(before: &str) -> bool {
    let other = before.trim_end_matches('\\');
    before.len().saturating_sub(other.len()) % 2 == 1
}

// Hexadecimal digits of a number up to 10FFFF.
fn is_code_point(digits: &str) -> bool {
    for byte in digits.as_bytes() {
        if !byte.is_ascii_hexdigit() {
            return false;
        }
    }
    let value = digits.trim_start_matches('0');
    !digits.is_empty() && (value.len() < 6 || (value.len() == 6 && value.starts_with("10")))
}

fn begins_wrong_escape(rest: &str) -> bool {
    let Some(point) = rest.strip_prefix("\\u{") else {
        return false;
    };
    match point.split_once('}') {
        Some((digits, _)) => !is_code_point(digits),
        None => true,
    }
}

fn begins_insertion(rest: &str) -> bool {
    match rest.strip_prefix('$') {
        Some(name) => name.starts_with('{') || begins_word(name),
        None => rest.starts_with("{$"),
    }
}

fn is_single_quoted(text: &str) -> bool {
    let Some(quoted) = text.strip_prefix('\'') else {
        return false;
    };
    let Some(inside) = quoted.strip_suffix('\'') else {
        return false;
    };
    for (at, byte) in inside.as_bytes().iter().enumerate() {
        if *byte == b'\'' && !escapes(inside.get(..at).unwrap_or("")) {
            return false;
        }
    }
    !escapes(inside)
}

// Whether no `"`, insertion or wrong `\u{` begins at a place between two others of a text in `"`, but for escaped ones.
fn are_fixed(source: &str, from: usize, to: usize) -> bool {
    for at in from..to {
        let rest = source.get(at..).unwrap_or("");
        let stops = rest.starts_with('"') || begins_insertion(rest) || begins_wrong_escape(rest);
        if stops && !escapes(source.get(from..at).unwrap_or("")) {
            return false;
        }
    }
    !escapes(source.get(from..to).unwrap_or(""))
}

fn is_double_quoted(text: &str) -> bool {
    let last = text.len().saturating_sub(1);
    text.len() > 1 && text.starts_with('"') && text.ends_with('"') && are_fixed(text, 1, last)
}

// The label and the kind of a heredoc or nowdoc with this first line.
fn label_of(line: &str) -> Option<(&str, TokenKind)> {
    let head = line.strip_suffix('\r').unwrap_or(line);
    let quoted = head.strip_prefix("<<<")?.trim_start_matches([' ', '\t']);
    let (label, kind) = if let Some(rest) = quoted.strip_prefix('\'') {
        (rest.strip_suffix('\'')?, TokenKind::Nowdoc)
    } else if let Some(rest) = quoted.strip_prefix('"') {
        (rest.strip_suffix('"')?, TokenKind::Heredoc)
    } else {
        (quoted, TokenKind::Heredoc)
    };
    if is_word(label) {
        Some((label, kind))
    } else {
        None
    }
}

fn begins_heredoc(rest: &str) -> bool {
    match rest.split_once('\n') {
        Some((first, _)) => label_of(first).is_some(),
        None => false,
    }
}

// Whether a line is blanks and the label, with no byte of an identifier behind it.
fn closes(line: &str, label: &str) -> bool {
    let word = line.trim_start_matches([' ', '\t']);
    match word.strip_prefix(label) {
        Some(behind) => !continues_word(behind),
        None => false,
    }
}

// Whether nothing is inserted into the lines of a heredoc, and no `\u{` in them is wrong.
fn is_heredoc_fixed(body: &str) -> bool {
    for at in 0..body.len() {
        let rest = body.get(at..).unwrap_or("");
        let is_wrong = begins_wrong_escape(rest) && !escapes(body.get(..at).unwrap_or(""));
        if begins_insertion(rest) || is_wrong {
            return false;
        }
    }
    true
}

// The kind of the heredoc or nowdoc that a text is: its last line is the first one that closes it.
fn heredoc_kind(text: &str, behind: &str) -> Option<TokenKind> {
    if !text.starts_with("<<<") {
        return None;
    }
    let (first, lines) = text.split_once('\n')?;
    let (label, kind) = label_of(first)?;
    let (body, last) = lines.rsplit_once('\n').unwrap_or(("", lines));
    if last.trim_start_matches([' ', '\t']) != label || continues_word(behind) {
        return None;
    }
    for line in body.split('\n') {
        if closes(line, label) {
            return None;
        }
    }
    if kind == TokenKind::Nowdoc || is_heredoc_fixed(body) {
        Some(kind)
    } else {
        None
    }
}

/// The kind of the text without insertions that some bytes are.
pub(super) fn text_kind(text: &str, behind: &str) -> Option<TokenKind> {
    if is_single_quoted(text) {
        Some(TokenKind::SingleQuoted)
    } else if is_double_quoted(text) {
        Some(TokenKind::DoubleQuoted)
    } else {
        heredoc_kind(text, behind)
    }
}

fn is_remark(text: &str, behind: &str) -> bool {
    let begins = text.starts_with("//") || (text.starts_with('#') && !text.starts_with("#["));
    let ends = behind.is_empty() || behind.starts_with('\n') || behind.starts_with("?>");
    begins && ends && !text.contains('\n') && !text.contains("?>")
}

/// The kind of the comment that some bytes are.
pub(super) fn comment_kind(text: &str, behind: &str) -> Option<TokenKind> {
    if is_remark(text, behind) {
        return Some(TokenKind::Comment);
    }
    let (_, rest) = text.strip_prefix("/*")?.split_once("*/")?;
    if !rest.is_empty() {
        None
    } else if text.starts_with("/**")
        && text.len() > 4
        && behind.starts_with([' ', '\t', '\r', '\n'])
    {
        Some(TokenKind::PhpDoc)
    } else {
        Some(TokenKind::Comment)
    }
}

/// Whether a `?>` may stand before these bytes.
pub(super) fn ends_file(behind: &str) -> bool {
    matches!(behind, "" | "\n" | "\r\n")
}

/// Whether something begins that no mark may stand for, though it may not end.
pub(super) fn begins_long(rest: &str) -> bool {
    rest.starts_with("?>") || rest.starts_with("/*") || begins_heredoc(rest)
}

fn is_index(text: &str) -> bool {
    is_word(text) || is_variable(text) || is_integer(text.strip_prefix('-').unwrap_or(text))
}

// The kind of the insertion without braces that some bytes of a text are.
fn inserted_kind(text: &str) -> Option<TokenKind> {
    if is_variable(text) {
        return Some(TokenKind::InsertedVariable);
    }
    if let Some((variable, rest)) = text.split_once('[') {
        let index = rest.strip_suffix(']')?;
        return if is_variable(variable) && is_index(index) {
            Some(TokenKind::InsertedElement)
        } else {
            None
        };
    }
    let (before, name) = text.split_once("->")?;
    if is_variable(before.strip_suffix('?').unwrap_or(before)) && is_word(name) {
        Some(TokenKind::InsertedProperty)
    } else {
        None
    }
}

/// The kind of the insertion or the fixed bytes that stand between two places of a text with insertions.
pub(super) fn piece_kind(source: &str, from: usize, to: usize) -> Option<TokenKind> {
    let behind = source.get(to..).unwrap_or("");
    let ends = behind.starts_with('"') || begins_insertion(behind);
    if ends && are_fixed(source, from, to) {
        Some(TokenKind::TextPiece)
    } else {
        inserted_kind(source.get(from..to).unwrap_or(""))
    }
}
