//! Tokens, and what they mean, as text.

use stan_base::OutOfMemory;
use stan_lexer::{code_tokens, comments, integer_value, lex, text_value};
use stan_model_grammar::token::{Token, TokenKind};
use stan_rows::{parts, plain, text_of, words};
use stan_slow_lexer::compared;
use std::alloc::Global;

// The tokens of a source, or none where it is too large to be read.
fn tokens_of(alloc: Global, source: &str) -> Result<Vec<Token>, OutOfMemory> {
    if source.len() > 1048576 {
        return Ok(Vec::new(alloc));
    }
    lex(alloc, source.as_bytes())
}

// Adds a token: its kind and its bytes.
fn push_token(out: &mut String, source: &str, token: &Token) -> Result<(), OutOfMemory> {
    if !out.is_empty() {
        out.push_str(" | ")?;
    }
    let alloc = *out.allocator();
    let bytes = source
        .get(token.start as usize..token.end as usize)
        .unwrap_or("?");
    out.push_str(format!(in alloc; "{:?}", token.kind)?.as_str())?;
    if !bytes.is_empty() {
        out.push(' ')?;
        out.push_str(bytes)?;
    }
    Ok(())
}

// Tokens, ` | ` between two.
fn shown(alloc: Global, source: &str, tokens: &[Token]) -> Result<String, OutOfMemory> {
    let mut out = String::new(alloc);
    for token in tokens {
        push_token(&mut out, source, token)?;
    }
    Ok(out)
}

pub fn tokens(alloc: Global, text: &str) -> Result<String, OutOfMemory> {
    let source = plain(alloc, text)?;
    let tokens = tokens_of(alloc, &source)?;
    shown(alloc, &source, &tokens)
}

/// The tokens of a source without comments and attributes.
pub fn code_of(alloc: Global, source: &str) -> Result<Vec<Token>, OutOfMemory> {
    let tokens = tokens_of(alloc, source)?;
    code_tokens(alloc, &tokens)
}

pub fn tokens_of_code(alloc: Global, text: &str) -> Result<String, OutOfMemory> {
    let source = plain(alloc, text)?;
    let code = code_of(alloc, &source)?;
    shown(alloc, &source, &code)
}

pub fn comments_of(alloc: Global, text: &str) -> Result<String, OutOfMemory> {
    let source = plain(alloc, text)?;
    let tokens = tokens_of(alloc, &source)?;
    let found = comments(alloc, &tokens)?;
    shown(alloc, &source, &found)
}

/// The sources of a front, pieces and a back, read with two programs.
pub fn pieces(alloc: Global, text: &str) -> Result<String, OutOfMemory> {
    let (front, rest) = parts(text);
    let (pieces, back) = parts(rest);
    let front = plain(alloc, front)?;
    let back = plain(alloc, back)?;
    let pieces = words(alloc, pieces)?;
    compared(alloc, &front, &pieces, &back)
}

// The kind of a text by its name.
fn text_kind(name: &str) -> TokenKind {
    match name {
        "SingleQuoted" => TokenKind::SingleQuoted,
        "DoubleQuoted" => TokenKind::DoubleQuoted,
        "TextPiece" => TokenKind::TextPiece,
        "Heredoc" => TokenKind::Heredoc,
        "Nowdoc" => TokenKind::Nowdoc,
        _ => TokenKind::Identifier,
    }
}

/// What the token of a text means, by the name of its kind and its bytes.
pub fn value_of_text(alloc: Global, text: &str) -> Result<String, OutOfMemory> {
    let (kind, bytes) = text.split_once(' ').unwrap_or((text, ""));
    let bytes = plain(alloc, bytes)?;
    let value = text_value(alloc, text_kind(kind), bytes.as_bytes())?;
    text_of(alloc, &value)
}

pub fn value_of_integer(alloc: Global, text: &str) -> Result<String, OutOfMemory> {
    match integer_value(text.as_bytes()) {
        Some(value) => Ok(format!(in alloc; "{value}")?),
        None => Ok(String::from_str(alloc, "none")?),
    }
}
