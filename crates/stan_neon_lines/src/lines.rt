//! A text line by line.

ghost use Rattle.std.specs.Prelude.{◌≡◌, ◌≢◌, ◌≤◌, ◌<◌, ◌+◌, ◌-◌, ◌^◌, ◌==◌, ◌∷◌, [], not, length, take, drop, IfOk, OnOk, IfSome, MatchOption, option_map};
ghost use Rattle.std.specs.List.{prefix_len};
ghost use Rattle.std.specs.Str.{is_utf8};
ghost use Rattle.stan_neon_lines.specs.Lines.{without_return, content, contents, lines};
ghost use Rattle.stan_neon_lines.specs.Feed.{line_of};
ghost use Rattle.stan_neon_lines.specs.Content.{content_of};

use crate::entries::entry;
use stan_base::OutOfMemory;
use stan_model_neon::node::Entry;
use stan_neon_scalars::{blanks, byte_at};
use std::alloc::Global;

/// A line with content.
#[derive(Drop)]
pub struct Line<'a> {
    /// Its number in the text, from 1.
    pub number: u32,
    /// The run of tabs and spaces at its front.
    pub indentation: &'a [u8],
    pub entry: Entry,
}

// The indentation of a line, and what stands behind it.
#[derive(Drop)]
struct Content<'a> {
    indentation: &'a [u8],
    entry: Entry,
}

// How many bytes stand before the first line feed.
fn line_len(bytes: &[u8]) -> usize
    ensures value { result ≡ prefix_len (λ b. not (b == 10)) bytes.now }
    ensures within { result ≤ length bytes.now }
{
    for (i, byte) in bytes.iter().enumerate() {
        if *byte == b'\n' {
            return i;
        }
    }
    bytes.len()
}

// Without one carriage return at the end.
#[tactic(auto, unfolding(crate::specs::Lines::without_return))]
fn without_return(piece: &[u8]) -> &[u8]
    ensures { result.now ≡ without_return piece.now }
{
    let end = piece.len().saturating_sub(1);
    if byte_at(piece, end) == b'\r' {
        &piece[..end]
    } else {
        piece
    }
}

fn is_utf8(bytes: &[u8]) -> bool
    ensures { result ≡ is_utf8 bytes.now }
{
    match str::from_utf8(bytes) {
        Ok(_) => true,
        Err(_) => false,
    }
}

// None where the line means nothing.
#[tactic(auto, unfolding(crate::specs::Lines::content))]
fn read_content<'a>(alloc: Global, line: &'a [u8]) -> Result<Option<Content<'a>>, OutOfMemory>
    ensures { IfOk result (λ read. option_map content_of read ≡ content line.now) }
{
    if !is_utf8(line) {
        return Ok(Some(Content {
            indentation: &[],
            entry: Entry::Broken,
        }));
    }
    let width = blanks(line);
    let rest = &line[width..];
    if rest.is_empty() || byte_at(rest, 0) == b'#' {
        return Ok(None);
    }
    let entry = entry(alloc, rest)?;
    Ok(Some(Content {
        indentation: &line[..width],
        entry,
    }))
}

/// The lines of a text that have content, from the front.
#[derive(Drop)]
pub struct Feed<'a> {
    text: &'a [u8],
    // Where the next line begins; past the end there is none.
    at: usize,
    // The number of the next line.
    number: u32,
    ghost within: { at ≤ length text.now + 1 },
    ghost numbered: { number ≤ at + 1 },
    ghost small: { length text.now ≤ 67108864 },
}

impl<'a> Feed<'a> {
    ghost use Rattle.stan_neon_lines.specs.Rest.{lines_left, contents_left};

    /// All lines of a text of at most 67,108,864 bytes.
    pub fn new(text: &'a [u8]) -> Feed<'a>
        requires { length text.now ≤ 67108864 }
        ensures { contents_left result ≡ contents 1 (lines text.now) }
    {
        Feed {
            text,
            at: 0,
            number: 1,
        }
    }

    // The next line, without its end.
    fn next_line(&mut self) -> Option<&'a [u8]>
        ensures value { MatchOption result (lines_left self.old ≡ []) (λ line. lines_left self.old ≡ line.now ∷ lines_left self.new) }
        ensures number { IfSome result (λ _. self.new.number ≡ self.old.number + 1) }
        ensures goes_on { IfSome result (λ _. self.old.at < self.new.at) }
        ensures text { self.new.text.now ≡ self.old.text.now }
    {
        if self.at > self.text.len() {
            return None;
        }
        let rest = &self.text[self.at..];
        let len = line_len(rest);
        self.at += len + 1;
        self.number += 1;
        Some(without_return(&rest[..len]))
    }

    /// The next line with content.
    pub fn next(&mut self, alloc: Global) -> Result<Option<Line<'a>>, OutOfMemory>
        ensures { IfOk result (λ line. MatchOption line (contents_left self.old ≡ []) (λ l. contents_left self.old ≡ line_of l ∷ contents_left self.new)) }
    {
        'lines: loop {
            let number = self.number;
            let Some(line) = self.next_line() else {
                return Ok(None);
            };
            match read_content(alloc, line)? {
                Some(content) => {
                    return Ok(Some(Line {
                        number,
                        indentation: content.indentation,
                        entry: content.entry,
                    }));
                }
                None => {}
            }
        }
    }
}
