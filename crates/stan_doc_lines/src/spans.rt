//! Where each tag of a text stands.

ghost use Rattle.std.specs.Prelude.{◌≡◌, ◌<◌, length, drop, IfOk};
ghost use Rattle.stan_model_doc.specs.Comment.{tag_spans};
ghost use Rattle.std.specs.List.{All};
ghost use Rattle.stan_doc_lines.specs.Laws.{IsPlaced};
ghost use Rattle.stan_doc_lines.specs.Spans.{first_start, up_to};

use crate::starts::open_tags;
use stan_base::OutOfMemory;
use stan_model_doc::token::TagSpan;
use std::alloc::Global;

// The place of the tag at an index, or another one behind the last.
#[tactic(auto, using(crate::proofs::SpanLemmas::start_steps))]
fn start_or(tags: &[TagSpan], index: usize, end: u32) -> u32
    ensures { result ≡ first_start (drop index tags.now) end }
{
    match tags.get(index) {
        Some(next) => next.start,
        None => end,
    }
}

// The same tag up to a place.
fn up_to(end: u32, tag: TagSpan) -> TagSpan
    ensures { result ≡ up_to end tag }
{
    TagSpan { end, ..tag }
}

// The tags of a text.
#[tactic(auto, using(crate::proofs::SpanLemmas::span_steps))]
fn closed_tags(alloc: Global, text: &[u8]) -> Result<Vec<TagSpan>, OutOfMemory>
    requires { length text.now < u32.MAX }
    ensures { IfOk result (λ spans. spans.items ≡ tag_spans text.now) }
{
    let tags = open_tags(alloc, text)?;
    let mut spans = Vec::with_capacity(alloc, tags.len())?;
    for index in 0..tags.len() {
        let end = start_or(&tags, index + 1, text.len() as u32);
        spans.push(up_to(end, tags[index]))?;
    }
    Ok(spans)
}

/// The tags of a comment's text, in order, each up to the next one. Only memory can be wanting.
pub fn tag_spans(alloc: Global, text: &[u8]) -> Result<Vec<TagSpan>, OutOfMemory>
    requires { length text.now < u32.MAX }
    ensures value { IfOk result (λ spans. spans.items ≡ tag_spans text.now) }
    ensures placed { IfOk result (λ spans. All (IsPlaced text.now) spans.items) }
{
    let spans = closed_tags(alloc, text)?;
    Ok(spans)
}
