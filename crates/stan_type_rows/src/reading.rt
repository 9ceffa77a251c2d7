//! A row's type is written as words with a blank between them, each behind the types that it takes: `int string |` is their union.

use crate::counted::counted;
use crate::operations::{named, operation};
use crate::parts::part;
use stan_base::OutOfMemory;
use stan_rows::{Reading, number};
use stan_type::{PhpType, one};
use stan_type_text::text;
use std::alloc::Global;

/// The folders of rows.
pub const FOLDERS: [(&str, Kind); 10] = [
    ("kinds", Kind::Text),
    ("ints", Kind::Text),
    ("strings", Kind::Text),
    ("arrays", Kind::Text),
    ("mixed", Kind::Text),
    ("bytes", Kind::Text),
    ("limits", Kind::Text),
    ("keeps", Kind::Text),
    ("leaves", Kind::Text),
    ("sizes", Kind::Size),
];

#[derive(Clone, Copy)]
pub enum Kind {
    /// The text of a type.
    Text,
    /// How many bytes it has.
    Size,
}

impl Reading for Kind {
    fn reading(&self, alloc: Global, row: &str) -> Result<String, OutOfMemory> {
        let mut types = Vec::new(alloc);
        for word in row.split(' ') {
            if !take_word(alloc, &mut types, word)? {
                return Ok(format!(in alloc; "no word: {word}")?);
            }
        }
        let Some(only) = types.pop() else {
            return Ok(String::from_str(alloc, "no type")?);
        };
        if !types.is_empty() {
            return Ok(String::from_str(alloc, "several types")?);
        }
        let shown = text(alloc, &only)?;
        match self {
            Kind::Text => Ok(shown),
            Kind::Size => {
                let size = shown.len();
                Ok(format!(in alloc; "{size} bytes")?)
            }
        }
    }
}

// Puts the type of a word behind the others. False where the word is none, or types are wanting.
fn take_word(alloc: Global, types: &mut Vec<PhpType>, word: &str) -> Result<bool, OutOfMemory> {
    let made = if let Some(part) = part(alloc, word)? {
        Some(one(alloc, part)?)
    } else if let Some((name, fields)) = word.split_once("=") {
        named(alloc, types, name, fields)?
    } else if let Some((name, count)) = word.split_once("*") {
        counted(alloc, types, name, number(count))?
    } else {
        operation(alloc, types, word)?
    };
    match made {
        None => Ok(false),
        Some(t) => {
            types.push(t)?;
            Ok(true)
        }
    }
}
