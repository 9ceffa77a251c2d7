//! What is read of a row's text. In it `▒` stands for the byte FF, which is in no UTF-8.

use crate::shown::node;
use stan_base::OutOfMemory;
use stan_neon::{NeonStop, read};
use stan_rows::{Reading, number, parts, plain};
use std::alloc::Global;

/// The folders of rows.
pub const FOLDERS: [(&str, Kind); 6] = [
    ("scalars", Kind::Tree),
    ("lines", Kind::Tree),
    ("blocks", Kind::Tree),
    ("bad", Kind::Tree),
    ("deep", Kind::Deep),
    ("long", Kind::Long),
];

#[derive(Clone, Copy)]
pub enum Kind {
    /// The tree of a text.
    Tree,
    /// Whether a text of so many dashes is read, each deeper by a blank than the one before.
    Deep,
    /// Whether a text of so many bytes is read, a piece over and over.
    Long,
}

impl Reading for Kind {
    fn reading(&self, alloc: Global, text: &str) -> Result<String, OutOfMemory> {
        match self {
            Kind::Tree => tree(alloc, &bytes_of(alloc, text)?),
            Kind::Deep => whether(alloc, &dashes(alloc, number(text))?),
            Kind::Long => {
                let (count, piece) = parts(text);
                whether(alloc, &repeated(alloc, number(count), piece)?)
            }
        }
    }
}

// The bytes of a row's text.
fn bytes_of(alloc: Global, text: &str) -> Result<Vec<u8>, OutOfMemory> {
    let text = plain(alloc, text)?;
    let mut bytes = Vec::new(alloc);
    for character in text.chars() {
        if character == '▒' {
            bytes.push(0xff)?;
        } else {
            let mut one = String::new(alloc);
            one.push(character)?;
            bytes.extend_from_slice(one.as_bytes())?;
        }
    }
    Ok(bytes)
}

fn dashes(alloc: Global, count: u32) -> Result<Vec<u8>, OutOfMemory> {
    let mut bytes = Vec::new(alloc);
    for width in 0..count {
        for _ in 0..width {
            bytes.push(b' ')?;
        }
        bytes.push(b'-')?;
        bytes.push(b'\n')?;
    }
    Ok(bytes)
}

fn repeated(alloc: Global, count: u32, piece: &str) -> Result<Vec<u8>, OutOfMemory> {
    let piece = plain(alloc, piece)?;
    let mut bytes = Vec::new(alloc);
    for _ in 0..count {
        bytes.extend_from_slice(piece.as_bytes())?;
    }
    Ok(bytes)
}

// The tree of a text, or the line at which it has none.
fn tree(alloc: Global, bytes: &[u8]) -> Result<String, OutOfMemory> {
    match read(alloc, bytes) {
        Ok(tree) => node(alloc, &tree),
        Err(NeonStop::Bad { line }) => Ok(format!(in alloc; "bad line {line}")?),
        Err(NeonStop::OutOfMemory) => Err(OutOfMemory),
    }
}

fn whether(alloc: Global, bytes: &[u8]) -> Result<String, OutOfMemory> {
    match read(alloc, bytes) {
        Ok(_) => Ok(String::from_str(alloc, "read")?),
        Err(NeonStop::Bad { line }) => Ok(format!(in alloc; "bad line {line}")?),
        Err(NeonStop::OutOfMemory) => Err(OutOfMemory),
    }
}
