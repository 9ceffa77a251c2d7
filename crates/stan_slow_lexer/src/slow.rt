//! A plain slow program that finds the tokens of a source: a token is the longest front of what is left that some kind spells, and
//! a bracket is read with all that stands in it. Every short source over a few pieces is read with it and with `lex`.

mod texts;
mod words;

use stan_base::OutOfMemory;
use stan_lexer::lex;
use stan_model_grammar::token::TokenKind;
use std::alloc::Global;
use texts::{begins_long, comment_kind, ends_file, piece_kind, text_kind};
use words::{is_keyword, mark_kind, word_kind};

/// The kind, the start and the end of a token.
type Found = (TokenKind, usize, usize);

// The kind of the token of code that stands between two places. Where something begins that may not end, no mark stands for it.
fn kind_of(source: &str, start: usize, end: usize, may_be_mark: bool) -> Option<TokenKind> {
    let text = source.get(start..end).unwrap_or("");
    let behind = source.get(end..).unwrap_or("");
    if text == "?>" && ends_file(behind) {
        return Some(TokenKind::ClosingTag);
    }
    if let Some(kind) = word_kind(text) {
        return Some(kind);
    }
    if let Some(kind) = text_kind(text, behind) {
        return Some(kind);
    }
    if let Some(kind) = comment_kind(text, behind) {
        return Some(kind);
    }
    if may_be_mark { mark_kind(text) } else { None }
}

// The longest token of code at a place, if one is there.
fn longest(source: &str, start: usize) -> Option<Found> {
    let may_be_mark = !begins_long(source.get(start..).unwrap_or(""));
    for last in (start..source.len()).rev() {
        let end = last.saturating_add(1);
        if let Some(kind) = kind_of(source, start, end, may_be_mark) {
            return Some((kind, start, end));
        }
    }
    None
}

// The longest token at a place of a text with insertions, if one is there.
fn longest_piece(source: &str, start: usize) -> Option<Found> {
    for last in (start..source.len()).rev() {
        let end = last.saturating_add(1);
        if let Some(kind) = piece_kind(source, start, end) {
            return Some((kind, start, end));
        }
    }
    None
}

// The kind of the last token, comments and attributes aside.
fn last_kind(tokens: &[Found]) -> TokenKind {
    for (kind, _, _) in tokens.iter().rev() {
        if !matches!(
            kind,
            TokenKind::Comment | TokenKind::PhpDoc | TokenKind::Attribute
        ) {
            return *kind;
        }
    }
    TokenKind::End
}

// Adds a token. Behind an arrow a keyword is a name.
fn push(tokens: &mut Vec<Found>, token: Found) -> Result<(), OutOfMemory> {
    let (kind, start, end) = token;
    let is_name = match last_kind(tokens) {
        TokenKind::Arrow | TokenKind::NullsafeArrow => is_keyword(kind),
        TokenKind::DoubleColon => is_keyword(kind) && kind != TokenKind::Class,
        _ => false,
    };
    let kind = if is_name { TokenKind::Identifier } else { kind };
    tokens.push((kind, start, end))?;
    Ok(())
}

fn is_blank(byte: Option<u8>) -> bool {
    matches!(byte, Some(b' ' | b'\t' | b'\r' | b'\n'))
}

// Adds the tokens of a text with insertions, and gives the place behind it. None where it doesn't end.
#[cycle(reading)]
fn read_text(
    tokens: &mut Vec<Found>,
    source: &str,
    start: usize,
    left: u32,
) -> Result<Option<usize>, OutOfMemory> {
    if left == 0 {
        return Ok(None);
    }
    let mut from = start.saturating_add(1);
    push(tokens, (TokenKind::TextStart, start, from))?;
    for at in start..source.len() {
        if at < from {
            continue;
        }
        let rest = source.get(at..).unwrap_or("");
        let next = at.saturating_add(1);
        if rest.starts_with('"') {
            push(tokens, (TokenKind::TextEnd, at, next))?;
            return Ok(Some(next));
        }
        if rest.starts_with("{$") {
            push(tokens, (TokenKind::InsertionStart, at, next))?;
            let Some(close) = read_inside(tokens, source, next, (b'{', b'}'), left - 1)? else {
                return Ok(None);
            };
            from = close.saturating_add(1);
            push(tokens, (TokenKind::InsertionEnd, close, from))?;
        } else {
            let Some(piece) = longest_piece(source, at) else {
                return Ok(None);
            };
            from = piece.2;
            push(tokens, piece)?;
        }
    }
    Ok(None)
}

// Adds an attribute without the tokens in it, and gives the place behind it. None where it doesn't end.
#[cycle(reading)]
fn read_attribute(
    tokens: &mut Vec<Found>,
    source: &str,
    start: usize,
    left: u32,
) -> Result<Option<usize>, OutOfMemory> {
    if left == 0 {
        return Ok(None);
    }
    let count = tokens.len();
    let from = start.saturating_add(2);
    let Some(close) = read_inside(tokens, source, from, (b'[', b']'), left - 1)? else {
        return Ok(None);
    };
    let end = close.saturating_add(1);
    tokens.truncate(count);
    push(tokens, (TokenKind::Attribute, start, end))?;
    Ok(Some(end))
}

// Adds the tokens of code up to the bracket that closes it, and gives its place. None where it isn't there.
#[cycle(reading)]
fn read_inside(
    tokens: &mut Vec<Found>,
    source: &str,
    from: usize,
    brackets: (u8, u8),
    left: u32,
) -> Result<Option<usize>, OutOfMemory> {
    if left == 0 {
        return Ok(None);
    }
    let mut from = from;
    let mut depth: u32 = 0;
    for at in 0..source.len() {
        let byte = source.as_bytes().get(at).copied();
        if at < from || is_blank(byte) {
            continue;
        }
        if byte == Some(brackets.1) && depth == 0 {
            return Ok(Some(at));
        }
        if byte == Some(brackets.0) {
            depth = depth.saturating_add(1);
        }
        if byte == Some(brackets.1) {
            depth = depth.saturating_sub(1);
        }
        let Some(end) = read_one(tokens, source, at, left - 1)? else {
            return Ok(None);
        };
        from = end;
    }
    Ok(None)
}

// Adds the token of code at a place with all that stands in it, and gives the place behind it. None where no whole one is there.
#[cycle(reading)]
fn read_one(
    tokens: &mut Vec<Found>,
    source: &str,
    start: usize,
    left: u32,
) -> Result<Option<usize>, OutOfMemory> {
    if left == 0 {
        return Ok(None);
    }
    if let Some(token) = longest(source, start) {
        push(tokens, token)?;
        return Ok(Some(token.2));
    }
    let rest = source.get(start..).unwrap_or("");
    if rest.starts_with('"') {
        read_text(tokens, source, start, left - 1)
    } else if rest.starts_with("#[") {
        read_attribute(tokens, source, start, left - 1)
    } else {
        Ok(None)
    }
}

// The tokens from a place on. Of what isn't whole the first byte is `Bad`, or the `#[`.
fn slow_tokens(alloc: Global, source: &str, from: usize) -> Result<Vec<Found>, OutOfMemory> {
    let mut tokens = Vec::new(alloc);
    let mut from = from;
    for (start, byte) in source.as_bytes().iter().enumerate() {
        if start < from || is_blank(Some(*byte)) {
            continue;
        }
        let count = tokens.len();
        let Some(end) = read_one(&mut tokens, source, start, 100)? else {
            let length = if *byte == b'#' { 2 } else { 1 };
            tokens.truncate(count);
            tokens.push((TokenKind::Bad, start, start.saturating_add(length)))?;
            break;
        };
        from = end;
    }
    Ok(tokens)
}

fn fast_tokens(alloc: Global, source: &str) -> Result<Vec<Found>, OutOfMemory> {
    let mut tokens = Vec::new(alloc);
    if source.len() > 1048576 {
        return Ok(tokens);
    }
    for token in &lex(alloc, source.as_bytes())? {
        tokens.push((token.kind, token.start as usize, token.end as usize))?;
    }
    Ok(tokens)
}

// A front with at most so many pieces behind it.
fn sources(
    alloc: Global,
    front: &str,
    pieces: &[String],
    most: usize,
) -> Result<Vec<String>, OutOfMemory> {
    let mut all = Vec::new(alloc);
    all.push(format!(in alloc; "<?php {front}")?)?;
    let mut from = 0;
    for _ in 0..most {
        let to = all.len();
        for place in from..to {
            for piece in pieces {
                let mut longer = match all.get(place) {
                    Some(source) => source.clone()?,
                    None => String::new(alloc),
                };
                longer.push_str(piece)?;
                all.push(longer)?;
            }
        }
        from = to;
    }
    Ok(all)
}

/// How many sources there are of a front, at most four pieces and a back, or the first one that the two programs read otherwise.
pub fn compared(
    alloc: Global,
    front: &str,
    pieces: &[String],
    back: &str,
) -> Result<String, OutOfMemory> {
    let sources = sources(alloc, front, pieces, 4)?;
    for start in &sources {
        let source = format!(in alloc; "{start}{back}")?;
        let tokens = fast_tokens(alloc, &source)?;
        let wanted = slow_tokens(alloc, &source, 6)?;
        if tokens.as_slice() != wanted.as_slice() {
            return Ok(format!(in alloc; "{source}: {tokens:?}, not {wanted:?}")?);
        }
    }
    Ok(format!(in alloc; "{}", sources.len())?)
}
