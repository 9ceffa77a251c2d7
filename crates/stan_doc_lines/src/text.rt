//! The text of a comment.

ghost use Rattle.std.specs.Prelude.{◌≡◌, ◌-◌, ◌≤◌, ◌<◌, length, slice_index, Bool, IfOk};
ghost use Rattle.stan_model_doc.specs.Comment.{text_start, is_line_front, text_byte, doc_text};
ghost use Rattle.stan_doc_lines.specs.Fronts.{front_behind};

use crate::marks::{text_end, text_start};
use stan_base::OutOfMemory;
use stan_runs::bytes::is_blank;
use std::alloc::Global;

/// Whether nothing but blanks stands in its line before the next byte, where the same holds or doesn't hold before this one.
pub fn front_behind(front: bool, byte: u8) -> bool
    ensures { result ≡ front_behind front byte }
{
    byte == b'\n' || (is_blank(byte) && front)
}

// The byte of the text at a place of the comment, before which nothing but blanks stands in its line or something does.
#[tactic(auto, unfolding(stan_model_doc::specs::Comment::text_byte))]
fn text_byte(comment: &[u8], from: usize, front: bool, at: usize) -> u8
    requires within { at < length comment.now }
    requires start { from ≡ text_start comment.now }
    requires front { front ≡ is_line_front comment.now from (at - from) }
    ensures { result ≡ text_byte comment.now at }
{
    let byte = comment[at];
    if at < from || (byte == b'*' && front) {
        b' '
    } else {
        byte
    }
}

/// The text of a comment of any bytes, as long as the comment up to its `*/`: a space stands for each byte of `/**` at its beginning and for
/// one `*` with nothing but blanks before it in its line. Only memory can be wanting.
#[tactic(auto, using(crate::proofs::TextLemmas::text_steps))]
pub fn doc_text(alloc: Global, comment: &[u8]) -> Result<Vec<u8>, OutOfMemory>
    ensures { IfOk result (λ text. text.items ≡ doc_text comment.now) }
{
    let from = text_start(comment);
    let to = text_end(comment);
    let mut text = Vec::with_capacity(alloc, to)?;
    let mut front = true;
    for at in 0..to {
        text.push(text_byte(comment, from, front, at))?;
        front = at < from || front_behind(front, comment[at]);
    }
    Ok(text)
}
