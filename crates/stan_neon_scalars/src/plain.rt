//! Plain scalars: words, numbers and texts.

ghost use Rattle.std.specs.Prelude.{◌≡◌, ◌≤◌, length, take, IfOk};
ghost use Rattle.std.specs.Str.{bytes_eq};
ghost use Rattle.stan_neon_scalars.specs.Numbers.{closes, plain_front, has_mark, is_true, is_false, word, plain};

use crate::bytes::{begins_plain, byte_at, is_blank};
use crate::numbers::number;
use crate::quotes::text_of;
use stan_base::OutOfMemory;
use stan_model_neon::node::Node;
use std::alloc::Global;

// Whether a plain text ends before a byte.
fn closes(listed: bool, before: u8, byte: u8) -> bool
    ensures { result ≡ closes listed before byte }
{
    (byte == b'#' && is_blank(before)) || (listed && (byte == b',' || byte == b']'))
}

/// How many bytes the plain text at the front has, without blanks at its end.
#[tactic(auto, unfolding(crate::specs::Numbers::plain_front))]
pub fn plain_len(listed: bool, bytes: &[u8]) -> usize
    ensures value { take result bytes.now ≡ plain_front listed bytes.now }
    ensures within { result ≤ length bytes.now }
{
    let mut end = 0;
    let mut before = b' ';
    for (i, byte) in bytes.iter().enumerate() {
        if closes(listed, before, *byte) {
            return end;
        }
        if !is_blank(*byte) {
            end = i + 1;
        }
        before = *byte;
    }
    end
}

// Whether `: ` stands somewhere.
fn has_mark(text: &[u8]) -> bool
    ensures { result ≡ has_mark 0 text.now }
{
    let mut before = 0;
    for byte in text {
        if before == b':' && *byte == b' ' {
            return true;
        }
        before = *byte;
    }
    false
}

fn is(text: &[u8], word: &[u8]) -> bool
    ensures { result ≡ bytes_eq text.now word.now }
{
    text == word
}

fn is_true(text: &[u8]) -> bool
    ensures { result ≡ is_true text.now }
{
    is(text, b"true") || is(text, b"yes") || is(text, b"on")
}

fn is_false(text: &[u8]) -> bool
    ensures { result ≡ is_false text.now }
{
    is(text, b"false") || is(text, b"no") || is(text, b"off")
}

// What a text means that is no number.
#[tactic(auto, unfolding(crate::specs::Numbers::word))]
fn word(alloc: Global, text: &[u8]) -> Result<Option<Node>, OutOfMemory>
    ensures { IfOk result (λ node. node ≡ word text.now) }
{
    if is_true(text) {
        return Ok(Some(Node::Bool(true)));
    }
    if is_false(text) {
        return Ok(Some(Node::Bool(false)));
    }
    if is(text, b"null") {
        return Ok(Some(Node::Null));
    }
    match text_of(alloc, text)? {
        Some(text) => Ok(Some(Node::Text(text))),
        None => Ok(None),
    }
}

/// What a plain text means. None where it is none.
#[tactic(auto, unfolding(crate::specs::Numbers::plain))]
pub fn plain(alloc: Global, text: &[u8]) -> Result<Option<Node>, OutOfMemory>
    ensures { IfOk result (λ node. node ≡ plain text.now) }
{
    if let Some(number) = number(text) {
        return Ok(Some(Node::Int(number)));
    }
    if text.is_empty() || !begins_plain(byte_at(text, 0)) || has_mark(text) {
        return Ok(None);
    }
    word(alloc, text)
}
