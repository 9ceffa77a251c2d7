//! The places at which tags begin.

ghost use Rattle.std.specs.Prelude.{◌≡◌, ◌<◌, ◌++◌, ◌==◌, ◌&&◌, length, map, IfOk, OnOk};
ghost use Rattle.stan_model_doc.specs.Comment.{tag_places};
ghost use Rattle.stan_doc_lines.specs.Fronts.{line_behind};
ghost use Rattle.stan_doc_lines.specs.Spans.{open_span, open_tag, with_tag};

use crate::runs::Run;
use crate::text::front_behind;
use stan_base::OutOfMemory;
use stan_model_doc::token::TagSpan;
use stan_runs::runs::run_end;
use std::alloc::Global;

// The line of the next byte.
fn line_behind(line: u32, byte: u8) -> u32
    requires { line < u32.MAX }
    ensures { result ≡ line_behind line byte }
{
    if byte == b'\n' { line + 1 } else { line }
}

// Whether a tag begins with a byte, before which nothing but blanks stands in its line or something does.
fn begins_tag(front: bool, byte: u8) -> bool
    ensures { result ≡ ((byte == 64) && front) }
{
    byte == b'@' && front
}

// The tag at a place, up to the end of the text.
fn open_span(text: &[u8], line: u32, at: usize) -> TagSpan
    requires within { at < length text.now }
    requires small { length text.now < u32.MAX }
    ensures { result ≡ open_span text.now line at }
{
    TagSpan {
        line,
        start: at as u32,
        word_end: run_end(text, Run::TagWord, at + 1) as u32,
        end: text.len() as u32,
    }
}

// Adds the tag at a place, if one begins there.
fn add_tag(
    tags: &mut Vec<TagSpan>,
    begins: bool,
    text: &[u8],
    line: u32,
    at: usize,
) -> Result<(), OutOfMemory>
    requires within { at < length text.now }
    requires small { length text.now < u32.MAX }
    ensures { OnOk result (tags.new.items ≡ tags.old.items ++ with_tag begins (open_span text.now line at)) }
{
    if begins {
        tags.push(open_span(text, line, at))?;
    }
    Ok(())
}

/// All tags of a text, in order, each up to the end of the text. Only memory can be wanting.
#[tactic(auto, using(crate::proofs::StartLemmas::start_steps), unfolding(stan_model_doc::specs::Comment::tag_places))]
pub fn open_tags(alloc: Global, text: &[u8]) -> Result<Vec<TagSpan>, OutOfMemory>
    requires { length text.now < u32.MAX }
    ensures { IfOk result (λ tags. tags.items ≡ map (open_tag text.now) (tag_places text.now)) }
{
    let mut tags = Vec::new(alloc);
    let mut front = true;
    let mut line = 1u32;
    for at in 0..text.len() {
        let byte = text[at];
        let begins = begins_tag(front, byte);
        add_tag(&mut tags, begins, text, line, at)?;
        front = front_behind(front, byte);
        line = line_behind(line, byte);
    }
    Ok(tags)
}
