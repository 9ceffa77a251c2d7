//! The sources of rows.

use stan_base::OutOfMemory;
use stan_rows::{number, parts, plain};
use std::alloc::Global;

/// The source that a row's text holds whole.
pub fn whole(alloc: Global, text: &str) -> Result<String, OutOfMemory> {
    plain(alloc, text)
}

/// The source that holds a row's text behind the opening tag.
pub fn opened(alloc: Global, text: &str) -> Result<String, OutOfMemory> {
    let text = plain(alloc, text)?;
    Ok(format!(in alloc; "<?php {text}")?)
}

/// The source that holds what a row's text says behind the opening tag: a number, and a text in five parts with `⋯` between them,
/// of which the second and the fourth stand so many times.
pub fn repeated(alloc: Global, text: &str) -> Result<String, OutOfMemory> {
    let (count, rest) = parts(text);
    let (before, rest) = parts(rest);
    let (front, rest) = parts(rest);
    let (middle, rest) = parts(rest);
    let (back, behind) = parts(rest);
    let count = number(count);
    let mut source = String::from_str(alloc, "<?php ")?;
    push(&mut source, before)?;
    push_times(&mut source, front, count)?;
    push(&mut source, middle)?;
    push_times(&mut source, back, count)?;
    push(&mut source, behind)?;
    plain(alloc, &source)
}

// Adds a text and a blank.
fn push(source: &mut String, text: &str) -> Result<(), OutOfMemory> {
    source.push_str(text)?;
    source.push(' ')?;
    Ok(())
}

fn push_times(source: &mut String, text: &str, count: u32) -> Result<(), OutOfMemory> {
    for _ in 0..count {
        push(source, text)?;
    }
    Ok(())
}
