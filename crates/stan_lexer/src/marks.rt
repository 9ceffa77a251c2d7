//! Comments, casts, the last `?>`, operators and marks.

ghost use Rattle.std.specs.Prelude.{◌≡◌, ◌≤◌, ◌<◌, ◌^◌, nat_eq, length, map, IsTrue};
ghost use Rattle.std.specs.List.{starts_with};
ghost use Rattle.stan_model_grammar.specs.Marks.{begins_remark, begins_comment, comment, is_identifier, parenthesis, begins_closing, closing, mark_among, mark};
ghost use Rattle.stan_lexer.specs.Tables.{row_of};

use crate::runs::Run;
use crate::words::kind_among;
use stan_model_grammar::token::{CASTS, MARKS, TokenKind};
use stan_runs::bytes::{byte_at, is_blank};
use stan_runs::runs::run_end;

pub fn begins_remark(source: &[u8], at: usize) -> bool
    requires { at < 2 ^ 63 }
    ensures { result ≡ begins_remark source.now at }
{
    let byte = byte_at(source, at);
    let next = byte_at(source, at + 1);
    (byte == b'#' && next != b'[') || (byte == b'/' && next == b'/')
}

pub fn begins_comment(source: &[u8], at: usize) -> bool
    requires { at < 2 ^ 63 }
    ensures { result ≡ begins_comment source.now at }
{
    byte_at(source, at) == b'/' && byte_at(source, at + 1) == b'*'
}

/// The comment at a place, up to its `*/`, by its kind and its end. Without an end it is `Bad`.
#[tactic(auto, unfolding(stan_model_grammar::specs::Marks::comment))]
pub fn comment(source: &[u8], at: usize) -> (TokenKind, usize)
    requires { at < length source.now }
    ensures value { result ≡ comment source.now at }
    ensures rises { at < result.1 }
    ensures within { result.1 ≤ length source.now }
{
    let to = run_end(source, Run::Comment, at + 2);
    if !(byte_at(source, to) == b'*' && byte_at(source, to + 1) == b'/') {
        return (TokenKind::Bad, at + 1);
    }
    if byte_at(source, at + 2) == b'*' && at + 2 < to && is_blank(byte_at(source, to + 2)) {
        (TokenKind::PhpDoc, to + 2)
    } else {
        (TokenKind::Comment, to + 2)
    }
}

fn is_identifier(kind: TokenKind) -> bool
    ensures { result ≡ is_identifier kind }
{
    matches!(kind, TokenKind::Identifier)
}

/// The cast at a place, or its `(` alone, by its kind and its end.
#[tactic(auto, unfolding(stan_model_grammar::specs::Marks::parenthesis, stan_model_grammar::specs::Marks::casts))]
pub fn parenthesis(source: &[u8], at: usize) -> (TokenKind, usize)
    requires { at < length source.now }
    ensures value { result ≡ parenthesis source.now at }
    ensures rises { at < result.1 }
    ensures within { result.1 ≤ length source.now }
{
    let from = run_end(source, Run::Spaces, at + 1);
    let to = run_end(source, Run::Word, from);
    let close = run_end(source, Run::Spaces, to);
    let kind = kind_among(&CASTS, &source[from..to]);
    if !is_identifier(kind) && byte_at(source, close) == b')' {
        (kind, close + 1)
    } else {
        (TokenKind::LeftParenthesis, at + 1)
    }
}

pub fn begins_closing(source: &[u8], at: usize) -> bool
    requires { at < 2 ^ 63 }
    ensures { result ≡ begins_closing source.now at }
{
    byte_at(source, at) == b'?' && byte_at(source, at + 1) == b'>'
}

/// The last `?>`, with nothing or one line end behind it, by its kind and its end. Another one is `Bad`.
#[tactic(auto, unfolding(stan_model_grammar::specs::Marks::closing))]
pub fn closing(source: &[u8], at: usize) -> (TokenKind, usize)
    requires within { at < length source.now }
    requires begins { IsTrue (begins_closing source.now at) }
    ensures value { result ≡ closing source.now at }
    ensures rises { at < result.1 }
    ensures within { result.1 ≤ length source.now }
{
    let len = source.len();
    let ends = at + 2 == len
        || (byte_at(source, at + 2) == b'\n' && at + 3 == len)
        || (byte_at(source, at + 2) == b'\r' && byte_at(source, at + 3) == b'\n' && at + 4 == len);
    if ends {
        (TokenKind::ClosingTag, at + 2)
    } else {
        (TokenKind::Bad, at + 1)
    }
}

// Whether bytes begin with a mark. Most marks of a table differ in the first byte.
#[tactic(auto, using(crate::proofs::TableLemmas::starts_with_apart))]
fn begins_with(rest: &[u8], mark: &[u8]) -> bool
    ensures { result ≡ starts_with nat_eq rest.now mark.now }
{
    if !mark.is_empty() && byte_at(rest, 0) != byte_at(mark, 0) {
        return false;
    }
    rest.starts_with(mark)
}

// The first row that stands at a place, by its kind and its end, or `Bad`.
fn mark_among(rows: &[(&str, TokenKind)], source: &[u8], at: usize) -> (TokenKind, usize)
    requires { at < length source.now }
    ensures value { result ≡ mark_among (map row_of rows.now) source.now at }
    ensures within { result.1 ≤ length source.now }
{
    let rest = &source[at..];
    for (row, kind) in rows {
        if begins_with(rest, row.as_bytes()) {
            return (*kind, at + row.len());
        }
    }
    (TokenKind::Bad, at + 1)
}

/// The longest operator or mark at a place, by its kind and its end. Where none stands it is `Bad`.
#[tactic(auto, using(crate::proofs::TableLemmas::mark_rises), unfolding(stan_model_grammar::specs::Marks::mark, stan_model_grammar::specs::Marks::marks))]
pub fn mark(source: &[u8], at: usize) -> (TokenKind, usize)
    requires { at < length source.now }
    ensures value { result ≡ mark source.now at }
    ensures rises { at < result.1 }
    ensures within { result.1 ≤ length source.now }
{
    mark_among(&MARKS, source, at)
}
