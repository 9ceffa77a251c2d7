//! Texts in quotes, and the insertions of those in `"`.

ghost use Rattle.std.specs.Prelude.{◌≡◌, ◌+◌, ◌≤◌, ◌<◌, ◌^◌, length, max, slice_index, Bool, IsTrue};
ghost use Rattle.stan_model_grammar.specs.Runs.{run_end};
ghost use Rattle.stan_model_grammar.specs.Words.{begins_variable};
ghost use Rattle.stan_model_grammar.specs.Texts.{is_integer, integer_end, index_end, has_index, has_property, inserted, single_quoted, double_quoted, piece, text_token};

use crate::runs::Run;
use crate::words::begins_variable;
use stan_model_grammar::token::TokenKind;
use stan_runs::bytes::{begins_identifier, byte_at, is_digit};
use stan_runs::fixed::{Quote, begins_insertion, fixed_end};
use stan_runs::numbers::number;
use stan_runs::runs::run_end;

fn is_integer(kind: TokenKind) -> bool
    ensures { result ≡ is_integer kind }
{
    matches!(kind, TokenKind::Integer)
}

// The end of the integer at a place, or the place.
#[tactic(auto, unfolding(stan_model_grammar::specs::Texts::integer_end))]
fn integer_end(source: &[u8], at: usize) -> usize
    requires { at ≤ length source.now }
    ensures value { result ≡ integer_end source.now at }
    ensures within { result ≤ length source.now }
{
    if is_digit(byte_at(source, at)) {
        let (kind, to) = number(source, at);
        if is_integer(kind) { to } else { at }
    } else {
        at
    }
}

// The end of the index at a place, or the place.
#[tactic(auto, unfolding(stan_model_grammar::specs::Texts::index_end))]
fn index_end(source: &[u8], at: usize) -> usize
    requires { at ≤ length source.now }
    ensures { result ≡ index_end source.now at }
{
    let byte = byte_at(source, at);
    if begins_identifier(byte) {
        run_end(source, Run::Word, at)
    } else if begins_variable(source, at) {
        run_end(source, Run::Word, at + 1)
    } else if byte == b'-' {
        let to = integer_end(source, at + 1);
        if at + 1 < to { to } else { at }
    } else {
        integer_end(source, at)
    }
}

// Whether an index in brackets stands there.
fn has_index(source: &[u8], at: usize) -> bool
    requires { at ≤ length source.now }
    ensures value { result ≡ has_index source.now at }
    ensures begins { IsTrue result → at < length source.now }
    ensures within { IsTrue result → index_end source.now (at + 1) < length source.now }
{
    if byte_at(source, at) != b'[' {
        return false;
    }
    let to = index_end(source, at + 1);
    at + 1 < to && byte_at(source, to) == b']'
}

// Whether `->` and an identifier stand there.
fn has_property(source: &[u8], at: usize) -> bool
    requires { at < 2 ^ 63 }
    ensures value { result ≡ has_property source.now at }
    ensures within { IsTrue result → at + 1 < length source.now }
{
    byte_at(source, at) == b'-'
        && byte_at(source, at + 1) == b'>'
        && begins_identifier(byte_at(source, at + 2))
}

// The longest insertion of the variable at a place, by its kind and its end.
#[tactic(auto, unfolding(stan_model_grammar::specs::Texts::inserted))]
fn inserted(source: &[u8], at: usize) -> (TokenKind, usize)
    requires { at < length source.now }
    ensures value { result ≡ inserted source.now at }
    ensures rises { at < result.1 }
    ensures within { result.1 ≤ length source.now }
{
    let to = run_end(source, Run::Word, at + 1);
    if has_index(source, to) {
        (TokenKind::InsertedElement, index_end(source, to + 1) + 1)
    } else if has_property(source, to) {
        (
            TokenKind::InsertedProperty,
            run_end(source, Run::Word, to + 2),
        )
    } else if byte_at(source, to) == b'?' && has_property(source, to + 1) {
        (
            TokenKind::InsertedProperty,
            run_end(source, Run::Word, to + 3),
        )
    } else {
        (TokenKind::InsertedVariable, to)
    }
}

/// The text in `'` at a place, by its kind and its end. Without an end it is `Bad`.
#[tactic(auto, unfolding(stan_model_grammar::specs::Texts::single_quoted))]
pub fn single_quoted(source: &[u8], at: usize) -> (TokenKind, usize)
    requires { at < length source.now }
    ensures value { result ≡ single_quoted source.now at }
    ensures rises { at < result.1 }
    ensures within { result.1 ≤ length source.now }
{
    let to = fixed_end(source, Quote::Single, at + 1);
    if to < source.len() {
        (TokenKind::SingleQuoted, to + 1)
    } else {
        (TokenKind::Bad, at + 1)
    }
}

/// The text in `"` at a place, or the quote of one with insertions, by its kind and its end. Without an end it is `Bad`.
#[tactic(auto, unfolding(stan_model_grammar::specs::Texts::double_quoted))]
pub fn double_quoted(source: &[u8], at: usize) -> (TokenKind, usize)
    requires { at < length source.now }
    ensures value { result ≡ double_quoted source.now at }
    ensures rises { at < result.1 }
    ensures within { result.1 ≤ length source.now }
{
    let to = fixed_end(source, Quote::Double, at + 1);
    if byte_at(source, to) == b'"' {
        (TokenKind::DoubleQuoted, to + 1)
    } else if begins_insertion(source, to) {
        (TokenKind::TextStart, at + 1)
    } else {
        (TokenKind::Bad, at + 1)
    }
}

// The fixed bytes at a place, by their kind and their end. Where none stand, or the text doesn't end, that is `Bad`.
#[tactic(auto, unfolding(stan_model_grammar::specs::Texts::piece))]
fn piece(source: &[u8], at: usize) -> (TokenKind, usize)
    requires { at < length source.now }
    ensures value { result ≡ piece source.now at }
    ensures rises { at < result.1 }
    ensures within { result.1 ≤ length source.now }
{
    let to = fixed_end(source, Quote::Double, at);
    if at < to && (byte_at(source, to) == b'"' || begins_insertion(source, to)) {
        (TokenKind::TextPiece, to)
    } else {
        (TokenKind::Bad, at + 1)
    }
}

/// What stands at a place in a text with insertions, by its kind and its end.
#[tactic(auto, unfolding(stan_model_grammar::specs::Texts::text_token))]
pub fn text_token(source: &[u8], at: usize) -> (TokenKind, usize)
    requires { at < length source.now }
    ensures value { result ≡ text_token source.now at }
    ensures rises { at < result.1 }
    ensures within { result.1 ≤ length source.now }
{
    let byte = source[at];
    if byte == b'"' {
        (TokenKind::TextEnd, at + 1)
    } else if byte == b'{' && byte_at(source, at + 1) == b'$' {
        (TokenKind::InsertionStart, at + 1)
    } else if begins_variable(source, at) {
        inserted(source, at)
    } else {
        piece(source, at)
    }
}
