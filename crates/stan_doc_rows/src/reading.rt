//! What is read of a comment.

use stan_base::OutOfMemory;
use stan_doc_lines::{doc_text, tag_spans};
use stan_doc_tokens::{is_winning, tag_tokens};
use stan_model_doc::token::{DocToken, TagSpan};
use stan_rows::{Reading, plain, text_of};
use std::alloc::Global;

/// The folders of rows, each with what is read of their comments.
pub const FOLDERS: [(&str, Kind); 3] = [
    ("texts", Kind::Texts),
    ("tags", Kind::Tags),
    ("tokens", Kind::Tokens),
];

#[derive(Clone, Copy)]
pub enum Kind {
    /// The text of a comment, between `[` and `]`.
    Texts,
    /// Its tags, each by its line, its word and its text; a `!` stands behind a word that wins.
    Tags,
    /// The tokens of all its tags, each by its kind and its bytes.
    Tokens,
}

impl Reading for Kind {
    fn reading(&self, alloc: Global, text: &str) -> Result<String, OutOfMemory> {
        let comment = plain(alloc, text)?;
        let comment = comment.as_bytes();
        if comment.len() > 1048576 {
            return Ok(String::from_str(alloc, "too large")?);
        }
        match self {
            Kind::Texts => whole(alloc, comment),
            Kind::Tags => tags(alloc, comment),
            Kind::Tokens => tokens(alloc, comment),
        }
    }
}

fn whole(alloc: Global, comment: &[u8]) -> Result<String, OutOfMemory> {
    let text = doc_text(alloc, comment)?;
    let shown = text_of(alloc, &text)?;
    Ok(format!(in alloc; "[{shown}]")?)
}

// The bytes of a text from one place up to another.
fn part(alloc: Global, text: &[u8], from: u32, to: u32) -> Result<String, OutOfMemory> {
    text_of(alloc, text.get(from as usize..to as usize).unwrap_or(b"?"))
}

// Adds what stands behind the others.
fn join(out: &mut String, shown: &str) -> Result<(), OutOfMemory> {
    if !out.is_empty() {
        out.push_str(" | ")?;
    }
    out.push_str(shown)?;
    Ok(())
}

fn add_tag(out: &mut String, text: &[u8], span: &TagSpan) -> Result<(), OutOfMemory> {
    let alloc = *out.allocator();
    let word = part(alloc, text, span.start, span.word_end)?;
    let behind = part(alloc, text, span.word_end, span.end)?;
    let plain_word = word.as_bytes().get(1..).unwrap_or(b"");
    let sign = if is_winning(plain_word) { "!" } else { "" };
    let line = span.line;
    join(out, format!(in alloc; "{line} {word}{sign}:")?.as_str())?;
    if !behind.trim().is_empty() {
        out.push(' ')?;
        out.push_str(behind.trim())?;
    }
    Ok(())
}

fn tags(alloc: Global, comment: &[u8]) -> Result<String, OutOfMemory> {
    let mut out = String::new(alloc);
    let text = doc_text(alloc, comment)?;
    if text.len() > 1048576 {
        return Ok(out);
    }
    let spans = tag_spans(alloc, &text)?;
    for span in &spans {
        add_tag(&mut out, &text, span)?;
    }
    Ok(out)
}

fn add_token(out: &mut String, text: &[u8], token: &DocToken) -> Result<(), OutOfMemory> {
    let alloc = *out.allocator();
    let bytes = part(alloc, text, token.start, token.end)?;
    join(out, format!(in alloc; "{:?} {bytes}", token.kind)?.as_str())
}

fn tokens(alloc: Global, comment: &[u8]) -> Result<String, OutOfMemory> {
    let mut out = String::new(alloc);
    let text = doc_text(alloc, comment)?;
    if text.len() > 1048576 {
        return Ok(out);
    }
    let spans = tag_spans(alloc, &text)?;
    for span in &spans {
        let tokens = tag_tokens(alloc, &text, span)?;
        for token in &tokens {
            add_token(&mut out, &text, token)?;
        }
    }
    Ok(out)
}
