//! What is read of a row's text.

use crate::configuration::configuration;
use crate::many::{Size, chosen};
use stan_base::OutOfMemory;
use stan_paths::normal_path;
use stan_patterns::matches;
use stan_rows::{Reading, number, parts, plain, words};
use stan_select::select;
use std::alloc::Global;

/// The folders of rows.
pub const FOLDERS: [(&str, Kind); 5] = [
    ("paths", Kind::Path),
    ("patterns", Kind::Pattern),
    ("long", Kind::Long),
    ("choice", Kind::Choice),
    ("many", Kind::Many),
];

#[derive(Clone, Copy)]
pub enum Kind {
    /// The normal form of a path.
    Path,
    /// Whether a pattern matches a text.
    Pattern,
    /// The same of a pattern that is a piece over and over with an end, and of a text of 65,536 pieces.
    Long,
    /// The files of a listing that a configuration chooses.
    Choice,
    /// How many files are chosen of many.
    Many,
}

impl Reading for Kind {
    fn reading(&self, alloc: Global, text: &str) -> Result<String, OutOfMemory> {
        match self {
            Kind::Path => normal_path(alloc, plain(alloc, text)?.as_str()),
            Kind::Pattern => {
                let (pattern, whole) = parts(text);
                whether(alloc, &plain(alloc, pattern)?, &plain(alloc, whole)?)
            }
            Kind::Long => long(alloc, text),
            Kind::Choice => choice(alloc, text),
            Kind::Many => many(alloc, text),
        }
    }
}

fn whether(alloc: Global, pattern: &String, text: &String) -> Result<String, OutOfMemory> {
    let answer = if matches(pattern.as_bytes(), text.as_bytes()) {
        "matches"
    } else {
        "differs"
    };
    Ok(String::from_str(alloc, answer)?)
}

// A row `COUNT PIECE END ⋯ PIECE`: the pattern's count, piece and end, and the text's piece.
fn long(alloc: Global, text: &str) -> Result<String, OutOfMemory> {
    let (pattern, piece) = parts(text);
    let given = words(alloc, pattern)?;
    let mut pattern = repeated(alloc, number_at(&given, 0), text_at(&given, 1))?;
    pattern.push_str(text_at(&given, 2))?;
    whether(alloc, &pattern, &repeated(alloc, 65536, piece)?)
}

fn repeated(alloc: Global, count: u32, piece: &str) -> Result<String, OutOfMemory> {
    let mut text = String::new(alloc);
    for _ in 0..count {
        text.push_str(piece)?;
    }
    Ok(text)
}

fn text_at(words: &[String], at: usize) -> &str {
    match words.get(at) {
        Some(word) => word.as_str(),
        None => "",
    }
}

fn number_at(words: &[String], at: usize) -> u32 {
    number(text_at(words, at))
}

// A row `CONFIGURATION ⋯ FILES`, the files with blanks between them.
fn choice(alloc: Global, text: &str) -> Result<String, OutOfMemory> {
    let (settings, files) = parts(text);
    let config = configuration(alloc, plain(alloc, settings)?.as_str())?;
    let listed = words(alloc, files)?;
    shown(alloc, &select(alloc, &config, &listed)?)
}

// The chosen files with blanks between them, each that is only scanned in brackets.
fn shown(alloc: Global, files: &[(String, bool)]) -> Result<String, OutOfMemory> {
    if files.is_empty() {
        return Ok(String::from_str(alloc, "nothing")?);
    }
    let mut text = String::new(alloc);
    let mut separator = "";
    for file in files {
        text.push_str(separator)?;
        if file.1 {
            text.push_str(file.0.as_str())?;
        } else {
            text.push_str("[")?;
            text.push_str(file.0.as_str())?;
            text.push_str("]")?;
        }
        separator = " ";
    }
    Ok(text)
}

// A row `FOLDERS FILES EXCLUDED PATTERNS`.
fn many(alloc: Global, text: &str) -> Result<String, OutOfMemory> {
    let numbers = words(alloc, text)?;
    let count = chosen(
        alloc,
        Size {
            folders: number_at(&numbers, 0),
            files: number_at(&numbers, 1),
            excluded: number_at(&numbers, 2),
            patterns: number_at(&numbers, 3),
        },
    )?;
    Ok(format!(in alloc; "{count}")?)
}
