//! Plain tests of words, numbers, casts and marks, by all their bytes.

use stan_model_grammar::token::{CASTS, KEYWORDS, MARKS, TokenKind};

fn row_of(rows: &[(&str, TokenKind)], text: &str) -> Option<TokenKind> {
    for (row, kind) in rows {
        if text.eq_ignore_ascii_case(row) {
            return Some(*kind);
        }
    }
    None
}

pub(super) fn is_keyword(kind: TokenKind) -> bool {
    for (_, keyword) in &KEYWORDS {
        if *keyword == kind {
            return true;
        }
    }
    false
}

fn is_word_byte(byte: u8) -> bool {
    byte.is_ascii_alphanumeric() || byte == b'_' || !byte.is_ascii()
}

/// Whether the first byte belongs to an identifier.
pub(super) fn continues_word(rest: &str) -> bool {
    match rest.as_bytes().first() {
        Some(byte) => is_word_byte(*byte),
        None => false,
    }
}

/// Whether the first byte begins an identifier.
pub(super) fn begins_word(rest: &str) -> bool {
    match rest.as_bytes().first() {
        Some(byte) => is_word_byte(*byte) && !byte.is_ascii_digit(),
        None => false,
    }
}

/// Whether all bytes are one identifier.
pub(super) fn is_word(text: &str) -> bool {
    for byte in text.as_bytes() {
        if !is_word_byte(*byte) {
            return false;
        }
    }
    begins_word(text)
}

// Identifiers with `\` between them, where one may stand in front.
fn is_name(text: &str) -> bool {
    for word in text.strip_prefix('\\').unwrap_or(text).split('\\') {
        if !is_word(word) {
            return false;
        }
    }
    true
}

fn name_kind(text: &str) -> TokenKind {
    match text.split_once('\\') {
        Some(("", _)) => TokenKind::FullyQualifiedName,
        Some((first, _)) if first.eq_ignore_ascii_case("namespace") => TokenKind::RelativeName,
        Some(_) => TokenKind::QualifiedName,
        None => row_of(&KEYWORDS, text).unwrap_or(TokenKind::Identifier),
    }
}

pub(super) fn is_variable(text: &str) -> bool {
    match text.strip_prefix('$') {
        Some(name) => is_word(name),
        None => false,
    }
}

// Whether a byte is a digit of a base up to 16.
fn is_digit(byte: u8, base: u8) -> bool {
    let value = match byte {
        b'0'..=b'9' => byte - b'0',
        b'a'..=b'f' => byte - b'a' + 10,
        _ => return false,
    };
    value < base
}

// Digits of a base, where one `_` may stand between two.
fn are_digits(text: &str, base: u8) -> bool {
    let mut is_behind_digit = false;
    for byte in text.as_bytes() {
        let is_digit = is_digit(*byte, base);
        if !is_digit && !(*byte == b'_' && is_behind_digit) {
            return false;
        }
        is_behind_digit = is_digit;
    }
    is_behind_digit
}

/// Whether all bytes are one integer. No source here has one past the greatest.
pub(super) fn is_integer(text: &str) -> bool {
    if let Some(digits) = text.strip_prefix("0x") {
        return are_digits(digits, 16);
    }
    if let Some(digits) = text.strip_prefix("0b") {
        return are_digits(digits, 2);
    }
    are_digits(text, if text.starts_with('0') { 8 } else { 10 })
}

// Digits, which may have a point before, between or behind them.
fn is_mantissa(text: &str) -> bool {
    match text.split_once('.') {
        Some(("", "")) => false,
        Some((whole, part)) => {
            (whole.is_empty() || are_digits(whole, 10)) && (part.is_empty() || are_digits(part, 10))
        }
        None => are_digits(text, 10),
    }
}

fn is_float(text: &str) -> bool {
    match text.split_once('e') {
        Some((mantissa, exponent)) => {
            is_mantissa(mantissa) && are_digits(exponent.strip_prefix('-').unwrap_or(exponent), 10)
        }
        None => text.contains('.') && is_mantissa(text),
    }
}

fn cast_of(text: &str) -> Option<TokenKind> {
    let word = text.strip_prefix('(')?.strip_suffix(')')?;
    row_of(&CASTS, word.trim_matches([' ', '\t']))
}

/// The kind of the word or number that a text is.
pub(super) fn word_kind(text: &str) -> Option<TokenKind> {
    if is_variable(text) {
        Some(TokenKind::Variable)
    } else if is_name(text) {
        Some(name_kind(text))
    } else if is_integer(text) {
        Some(TokenKind::Integer)
    } else if is_float(text) {
        Some(TokenKind::Float)
    } else {
        None
    }
}

fn mark_of(text: &str) -> Option<TokenKind> {
    row_of(&MARKS, text)
}

/// The kind of the cast, operator or mark that a text is. No mark is longer than three bytes.
pub(super) fn mark_kind(text: &str) -> Option<TokenKind> {
    if text.len() > 3 {
        cast_of(text)
    } else {
        mark_of(text)
    }
}
