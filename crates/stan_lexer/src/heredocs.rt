//! Heredocs and nowdocs. Only lines are looked at for the last one, so that each byte is read a few times at most.

ghost use Rattle.std.specs.Prelude.{◌≡◌, ◌+◌, ◌-◌, ◌≤◌, ◌<◌, ◌^◌, length, max, min, IsTrue, slice_index, if◌then◌else◌};
ghost use Rattle.std.specs.Prelude.{◌==◌};
ghost use Rattle.stan_model_grammar.specs.Runs.{run_end, space_at, line_at};
ghost use Rattle.stan_model_grammar.specs.Heredocs.{is_quote, head_blanks_end, label_quote, label_start, label_end, label, head_end, has_line_end, begins_heredoc, body_start, line_closes, closes, body_end, is_fixed, heredoc};

use crate::runs::Run;
use stan_model_grammar::token::TokenKind;
use stan_runs::bytes::{begins_identifier, byte_at, continues_identifier};
use stan_runs::fixed::{Quote, fixed_end};
use stan_runs::runs::run_end;

fn is_quote(byte: u8) -> bool
    ensures { result ≡ is_quote byte }
{
    byte == b'\'' || byte == b'"'
}

// The place behind `<<<` and blanks.
#[tactic(auto, unfolding(stan_model_grammar::specs::Heredocs::head_blanks_end))]
fn head_blanks_end(source: &[u8], at: usize) -> usize
    requires { at < length source.now }
    ensures value { result ≡ head_blanks_end source.now at }
    ensures rises { at + 3 ≤ result }
    ensures within { result ≤ max (at + 3) (length source.now) }
{
    run_end(source, Run::Spaces, at + 3)
}

/// The first byte of the label.
#[tactic(auto, unfolding(stan_model_grammar::specs::Heredocs::label_start))]
pub fn label_start(source: &[u8], at: usize) -> usize
    requires { at < length source.now }
    ensures value { result ≡ label_start source.now at }
    ensures rises { at + 3 ≤ result }
    ensures within { result ≤ max (at + 3) (length source.now) }
{
    let from = head_blanks_end(source, at);
    if is_quote(byte_at(source, from)) {
        from + 1
    } else {
        from
    }
}

/// The place behind the label.
#[tactic(auto, unfolding(stan_model_grammar::specs::Heredocs::label_end))]
pub fn label_end(source: &[u8], at: usize) -> usize
    requires { at < length source.now }
    ensures value { result ≡ label_end source.now at }
    ensures rises { label_start source.now at ≤ result }
    ensures far { at + 3 ≤ result }
    ensures within { result ≤ max (at + 3) (length source.now) }
{
    run_end(source, Run::Word, label_start(source, at))
}

// The place behind the label and its quote.
#[tactic(auto, unfolding(stan_model_grammar::specs::Heredocs::head_end))]
fn head_end(source: &[u8], at: usize) -> usize
    requires { at < length source.now }
    ensures value { result ≡ head_end source.now at }
    ensures rises { at + 3 ≤ result }
    ensures within { result ≤ max (at + 3) (length source.now) + 1 }
{
    let to = label_end(source, at);
    if is_quote(byte_at(source, head_blanks_end(source, at))) {
        to + 1
    } else {
        to
    }
}

fn has_line_end(source: &[u8], at: usize) -> bool
    requires { at < 2 ^ 63 + 8 }
    ensures value { result ≡ has_line_end source.now at }
    ensures within { IsTrue result → (if slice_index source.now at == 10 then at + 1 else at + 2) ≤ length source.now }
{
    let byte = byte_at(source, at);
    byte == b'\n' || (byte == b'\r' && byte_at(source, at + 1) == b'\n')
}

/// Whether the first line of a heredoc or a nowdoc begins there.
#[tactic(auto, unfolding(stan_model_grammar::specs::Heredocs::body_start))]
pub fn begins_heredoc(source: &[u8], at: usize) -> bool
    requires { at < length source.now }
    ensures value { result ≡ begins_heredoc source.now at }
    ensures label { IsTrue result → label_start source.now at < length source.now }
    ensures within { IsTrue result → body_start source.now at ≤ length source.now }
{
    if !(source[at] == b'<' && byte_at(source, at + 1) == b'<' && byte_at(source, at + 2) == b'<') {
        return false;
    }
    let quote = byte_at(source, head_blanks_end(source, at));
    let first = byte_at(source, label_start(source, at));
    begins_identifier(first)
        && (!is_quote(quote) || byte_at(source, label_end(source, at)) == quote)
        && has_line_end(source, head_end(source, at))
}

/// The first byte behind the first line.
#[tactic(auto, unfolding(stan_model_grammar::specs::Heredocs::body_start))]
pub fn body_start(source: &[u8], at: usize) -> usize
    requires { at < length source.now }
    ensures value { result ≡ body_start source.now at }
    ensures rises { at < result }
{
    let end = head_end(source, at);
    if byte_at(source, end) == b'\n' {
        end + 1
    } else {
        end + 2
    }
}

// Whether a line that begins there is the last one of the body that the label ends.
#[tactic(auto, unfolding(stan_model_grammar::specs::Heredocs::line_closes))]
fn line_closes(source: &[u8], label: &[u8], at: usize) -> bool
    requires { at ≤ length source.now }
    ensures value { result ≡ line_closes source.now label.now at }
    ensures within { IsTrue result → run_end source.now (space_at source.now) at + length label.now ≤ length source.now }
{
    let from = run_end(source, Run::Spaces, at);
    source[from..].starts_with(label) && !continues_identifier(byte_at(source, from + label.len()))
}

// The beginning of the line behind the one of a place, or the end of the source.
fn next_line(source: &[u8], at: usize) -> usize
    requires { at < length source.now }
    ensures value { result ≡ min (run_end source.now (line_at source.now) at + 1) (length source.now) }
    ensures rises { at < result }
{
    (run_end(source, Run::Line, at) + 1).min(source.len())
}

/// The beginning of the line that ends a body, or the end of the source.
#[tactic(auto, unfolding(stan_model_grammar::specs::Heredocs::body_end))]
pub fn body_end(source: &[u8], label: &[u8], body: usize) -> usize
    requires { body ≤ length source.now }
    ensures value { result ≡ body_end source.now label.now body }
    ensures rises { body ≤ result }
    ensures within { result ≤ length source.now }
    ensures ends { result < length source.now → run_end source.now (space_at source.now) result + length label.now ≤ length source.now }
{
    let mut at = body;
    while at < source.len() && !line_closes(source, label, at) {
        at = next_line(source, at);
    }
    at
}

// Whether nothing is inserted into a body, and no escape in it is wrong.
#[tactic(auto, unfolding(stan_model_grammar::specs::Heredocs::is_fixed))]
fn is_fixed(source: &[u8], body: usize, to: usize) -> bool
    requires { to ≤ length source.now }
    ensures { result ≡ is_fixed source.now body to }
{
    fixed_end(&source[..to], Quote::Heredoc, body) == to
}

/// The heredoc or nowdoc at a place, by its kind and its end. Where none begins, without an end, or with something inserted, it is
/// `Bad`.
#[tactic(auto, unfolding(stan_model_grammar::specs::Heredocs::heredoc))]
pub fn heredoc(source: &[u8], at: usize) -> (TokenKind, usize)
    requires { at < length source.now }
    ensures value { result ≡ heredoc source.now at }
    ensures rises { at < result.1 }
    ensures within { result.1 ≤ length source.now }
{
    if !begins_heredoc(source, at) {
        return (TokenKind::Bad, at + 1);
    }
    let label = &source[label_start(source, at)..label_end(source, at)];
    let body = body_start(source, at);
    let to = body_end(source, label, body);
    if to >= source.len() {
        return (TokenKind::Bad, at + 1);
    }
    let end = run_end(source, Run::Spaces, to) + label.len();
    if byte_at(source, head_blanks_end(source, at)) == b'\'' {
        (TokenKind::Nowdoc, end)
    } else if is_fixed(source, body, to) {
        (TokenKind::Heredoc, end)
    } else {
        (TokenKind::Bad, at + 1)
    }
}
