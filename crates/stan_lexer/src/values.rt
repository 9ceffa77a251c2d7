//! What integers and texts mean, by the bytes of their tokens.

ghost use Rattle.std.specs.Prelude.{◌≡◌, ◌≤◌, ◌<◌, length, MatchOption, IfOk};
ghost use Rattle.stan_model_grammar.specs.Values.{integer_value, between_quotes, without_line_end, body_lines, text_value};

use crate::escapes::{resolved, single_resolved, unindented};
use crate::heredocs::{begins_heredoc, body_end, body_start, label_end, label_start};
use crate::runs::Run;
use stan_base::OutOfMemory;
use stan_model_grammar::token::TokenKind;
use stan_runs::bases::Base;
use stan_runs::bytes::byte_at;
use stan_runs::numbers::{has_prefix, value};
use stan_runs::runs::run_end;
use std::alloc::Global;

/// The value of the bytes of an integer. None past 9223372036854775807: they are a float.
#[tactic(auto, unfolding(stan_model_grammar::specs::Values::integer_value))]
pub fn integer_value(bytes: &[u8]) -> Option<u64>
    ensures { MatchOption result (9223372036854775807 < integer_value bytes.now) (λ v. (v ≡ integer_value bytes.now) × (v ≤ 9223372036854775807)) }
{
    if has_prefix(bytes, b'x', b'X', Base::Hexadecimal, 0) {
        value(16, &bytes[2..])
    } else if has_prefix(bytes, b'b', b'B', Base::Binary, 0) {
        value(2, &bytes[2..])
    } else if byte_at(bytes, 0) == b'0' {
        value(8, bytes)
    } else {
        value(10, bytes)
    }
}

// What stands between two quotes.
fn between_quotes(bytes: &[u8]) -> &[u8]
    ensures { result.now ≡ between_quotes bytes.now }
{
    if bytes.len() < 2 {
        &bytes[..0]
    } else {
        &bytes[1..bytes.len() - 1]
    }
}

// Bytes without the line feed at their end, and a carriage return before it.
fn without_line_end(bytes: &[u8]) -> &[u8]
    ensures { result.now ≡ without_line_end bytes.now }
{
    let len = bytes.len();
    if byte_at(bytes, len.saturating_sub(1)) != b'\n' {
        bytes
    } else if byte_at(bytes, len.saturating_sub(2)) == b'\r' {
        &bytes[..len.saturating_sub(2)]
    } else {
        &bytes[..len.saturating_sub(1)]
    }
}

// The lines of a heredoc or nowdoc, without the blanks of its last line.
#[tactic(auto, unfolding(stan_model_grammar::specs::Values::body_lines))]
fn body_lines(alloc: Global, bytes: &[u8]) -> Result<Vec<u8>, OutOfMemory>
    ensures { IfOk result (λ out. out.items ≡ body_lines bytes.now) }
{
    if bytes.is_empty() {
        return Ok(Vec::new(alloc));
    }
    if !begins_heredoc(bytes, 0) {
        return Ok(Vec::new(alloc));
    }
    let label = &bytes[label_start(bytes, 0)..label_end(bytes, 0)];
    let from = body_start(bytes, 0);
    let to = body_end(bytes, label, from);
    let indent = run_end(bytes, Run::Spaces, to) - to;
    unindented(alloc, without_line_end(&bytes[from..to]), indent)
}

/// The bytes that the token of a text, or of a fixed piece of one, means: `bytes` are the token's own. Other tokens mean none.
pub fn text_value(alloc: Global, kind: TokenKind, bytes: &[u8]) -> Result<Vec<u8>, OutOfMemory>
    ensures { IfOk result (λ out. out.items ≡ text_value kind bytes.now) }
{
    let inside = between_quotes(bytes);
    match kind {
        TokenKind::SingleQuoted => single_resolved(alloc, inside),
        TokenKind::DoubleQuoted => resolved(alloc, inside, true),
        TokenKind::TextPiece => resolved(alloc, bytes, true),
        TokenKind::Heredoc => {
            let lines = body_lines(alloc, bytes)?;
            resolved(alloc, &lines, false)
        }
        TokenKind::Nowdoc => body_lines(alloc, bytes),
        _ => Ok(Vec::new(alloc)),
    }
}
