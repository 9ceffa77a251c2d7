//! The token at a place.

ghost use Rattle.std.specs.Prelude.{◌≡◌, ◌+◌, ◌≤◌, ◌<◌, ◌^◌, length, IsTrue, slice_index, Option};
ghost use Rattle.stan_model_grammar.specs.Tokens.{is_in_text, is_in_insertion, is_in_brace, is_in_bracket, begins_literal, literal, begins_attribute, begins_bound, bound, code_token, next_start, lexeme};

use crate::heredocs::{begins_heredoc, heredoc};
use crate::marks::{
    begins_closing, begins_comment, begins_remark, closing, comment, mark, parenthesis,
};
use crate::quotes::{double_quoted, single_quoted, text_token};
use crate::runs::{Run, byte_and_run};
use crate::words::{begins_name, begins_variable, name};
use stan_model_grammar::token::{Opening, TokenKind};
use stan_runs::bytes::byte_at;
use stan_runs::numbers::{begins_number, number};
use stan_runs::runs::run_end;

pub fn is_in_text(top: Option<Opening>) -> bool
    ensures { result ≡ is_in_text top }
{
    matches!(top, Some(Opening::Text))
}

fn is_in_insertion(top: Option<Opening>) -> bool
    ensures { result ≡ is_in_insertion top }
{
    matches!(top, Some(Opening::Insertion))
}

pub fn is_in_brace(top: Option<Opening>) -> bool
    ensures { result ≡ is_in_brace top }
{
    matches!(top, Some(Opening::Brace))
}

pub fn is_in_bracket(top: Option<Opening>) -> bool
    ensures { result ≡ is_in_bracket top }
{
    matches!(top, Some(Opening::Bracket))
}

#[tactic(auto, unfolding(stan_model_grammar::specs::Tokens::begins_literal))]
fn begins_literal(source: &[u8], at: usize) -> bool
    requires { at < length source.now }
    ensures { result ≡ begins_literal source.now at }
{
    let byte = source[at];
    begins_variable(source, at)
        || begins_name(source, at)
        || begins_number(source, at)
        || byte == b'\''
        || byte == b'"'
        || begins_heredoc(source, at)
}

// The word, number or text at a place, by its kind and its end.
#[tactic(auto, unfolding(stan_model_grammar::specs::Tokens::begins_literal, stan_model_grammar::specs::Tokens::literal, stan_model_grammar::specs::Words::variable))]
fn literal(source: &[u8], at: usize) -> (TokenKind, usize)
    requires within { at < length source.now }
    requires begins { IsTrue (begins_literal source.now at) }
    ensures value { result ≡ literal source.now at }
    ensures rises { at < result.1 }
    ensures within { result.1 ≤ length source.now }
{
    let byte = source[at];
    if begins_variable(source, at) {
        byte_and_run(source, TokenKind::Variable, Run::Word, at)
    } else if begins_name(source, at) {
        name(source, at)
    } else if begins_number(source, at) {
        number(source, at)
    } else if byte == b'\'' {
        single_quoted(source, at)
    } else if byte == b'"' {
        double_quoted(source, at)
    } else {
        heredoc(source, at)
    }
}

fn begins_attribute(source: &[u8], at: usize) -> bool
    requires { at < length source.now }
    ensures value { result ≡ begins_attribute source.now at }
    ensures within { IsTrue result → at + 2 ≤ length source.now }
{
    source[at] == b'#' && byte_at(source, at + 1) == b'['
}

// Whether a bracket there belongs to what is open.
#[tactic(auto, unfolding(stan_model_grammar::specs::Tokens::begins_bound))]
fn begins_bound(source: &[u8], top: Option<Opening>, at: usize) -> bool
    requires { at < length source.now }
    ensures value { result ≡ begins_bound source.now top at }
    ensures within { IsTrue result → slice_index source.now at ≡ 35 → at + 2 ≤ length source.now }
{
    let byte = source[at];
    begins_attribute(source, at)
        || (byte == b'}' && is_in_insertion(top))
        || (byte == b'[' && is_in_bracket(top))
        || (byte == b']' && is_in_bracket(top))
}

// That bracket, by its kind and its end.
#[tactic(auto, unfolding(stan_model_grammar::specs::Tokens::bound))]
fn bound(source: &[u8], at: usize) -> (TokenKind, usize)
    requires within { at < length source.now }
    requires attribute { slice_index source.now at ≡ 35 → at + 2 ≤ length source.now }
    ensures value { result ≡ bound source.now at }
    ensures rises { at < result.1 }
    ensures within { result.1 ≤ length source.now }
{
    match source[at] {
        b'#' => (TokenKind::AttributeStart, at + 2),
        b'}' => (TokenKind::InsertionEnd, at + 1),
        b'[' => (TokenKind::AttributeStart, at + 1),
        _ => (TokenKind::AttributeEnd, at + 1),
    }
}

// The longest token at a place outside of texts, by its kind and its end.
#[tactic(auto, unfolding(stan_model_grammar::specs::Tokens::code_token, stan_model_grammar::specs::Marks::remark))]
fn code_token(source: &[u8], top: Option<Opening>, at: usize) -> (TokenKind, usize)
    requires { at < length source.now }
    ensures value { result ≡ code_token source.now top at }
    ensures rises { at < result.1 }
    ensures within { result.1 ≤ length source.now }
{
    if begins_literal(source, at) {
        literal(source, at)
    } else if begins_bound(source, top, at) {
        bound(source, at)
    } else if begins_remark(source, at) {
        byte_and_run(source, TokenKind::Comment, Run::Remark, at)
    } else if begins_comment(source, at) {
        comment(source, at)
    } else if source[at] == b'(' {
        parenthesis(source, at)
    } else if begins_closing(source, at) {
        closing(source, at)
    } else {
        mark(source, at)
    }
}

/// Where the next token begins: blanks stand before it, but not in a text.
#[tactic(auto, unfolding(stan_model_grammar::specs::Tokens::next_start))]
pub fn next_start(source: &[u8], top: Option<Opening>, at: usize) -> usize
    requires { at ≤ length source.now }
    ensures value { result ≡ next_start source.now top at }
    ensures rises { at ≤ result }
    ensures within { result ≤ length source.now }
{
    if is_in_text(top) {
        at
    } else {
        run_end(source, Run::Blanks, at)
    }
}

/// The token at a place, by its kind and its end.
#[tactic(auto, unfolding(stan_model_grammar::specs::Tokens::lexeme))]
pub fn lexeme(source: &[u8], top: Option<Opening>, at: usize) -> (TokenKind, usize)
    requires { at < length source.now }
    ensures value { result ≡ lexeme source.now top at }
    ensures rises { at < result.1 }
    ensures within { result.1 ≤ length source.now }
{
    if is_in_text(top) {
        text_token(source, at)
    } else {
        code_token(source, top, at)
    }
}
