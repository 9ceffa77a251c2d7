//! Words for parts that hold no type. In names, literals and keys `▒` stands for the byte FF, which is in no UTF-8.

use sqlite_items::Items;
use stan_base::OutOfMemory;
use stan_rows::plain;
use stan_type::{Part, StringForm};
use stan_type_filters::Filter;
use std::alloc::Global;

/// The bytes of a name, a literal or a key.
pub fn bytes_of(alloc: Global, word: &str) -> Result<Vec<u8>, OutOfMemory> {
    let text = plain(alloc, word)?;
    let mut bytes = Vec::new(alloc);
    for character in text.chars() {
        if character == '▒' {
            bytes.push(0xff)?;
        } else {
            let mut one = String::new(alloc);
            one.push(character)?;
            bytes.extend_from_slice(one.as_bytes())?;
        }
    }
    Ok(bytes)
}

/// The part that a word stands for: a kind without fields, a number, a range such as `min..5`, or a literal in `'`.
pub fn part(alloc: Global, word: &str) -> Result<Option<Part>, OutOfMemory> {
    if let Some(behind) = word.strip_prefix("'") {
        let Some(text) = behind.strip_suffix("'") else {
            return Ok(None);
        };
        return Ok(Some(literal(alloc, text)?));
    }
    match bare(word) {
        Some(part) => Ok(Some(part)),
        None => Ok(range(word)),
    }
}

/// The part of a literal.
pub fn literal(alloc: Global, text: &str) -> Result<Part, OutOfMemory> {
    let text = Items::from_vec(bytes_of(alloc, text)?);
    Ok(Part::Str(StringForm::Literal(text)))
}

fn bare(word: &str) -> Option<Part> {
    match word {
        "int" => Some(ints(i64::MIN, i64::MAX)),
        "never" => Some(ints(1, 0)),
        "float" => Some(Part::Float),
        "string" => Some(Part::Str(StringForm::Plain)),
        "non-empty-string" => Some(Part::Str(StringForm::NonEmpty)),
        "class-string" => Some(Part::ClassString(None)),
        "false" => Some(Part::False),
        "true" => Some(Part::True),
        "null" => Some(Part::Null),
        "void" => Some(Part::Void),
        "implicit" => Some(Part::ImplicitMixed),
        "explicit" => Some(Part::ExplicitMixed),
        "object" => Some(Part::AnyObject),
        "callable" => Some(Part::Callable),
        _ => None,
    }
}

/// The part of the ints from one to another.
pub fn ints(least: i64, greatest: i64) -> Part {
    Part::Int { least, greatest }
}

fn range(word: &str) -> Option<Part> {
    match word.split_once("..") {
        None => {
            let number = word.parse::<i64>().ok()?;
            Some(ints(number, number))
        }
        Some((least, greatest)) => Some(ints(bound(least)?, bound(greatest)?)),
    }
}

fn bound(word: &str) -> Option<i64> {
    match word {
        "min" => Some(i64::MIN),
        "max" => Some(i64::MAX),
        _ => word.parse::<i64>().ok(),
    }
}

/// What a word asks: a kind, whether a value counts as true, or one part, as `is:5`.
pub fn filter(alloc: Global, word: &str) -> Result<Option<Filter>, OutOfMemory> {
    match word.strip_prefix("is:") {
        None => Ok(kind(word)),
        Some(value) => match part(alloc, value)? {
            None => Ok(None),
            Some(part) => Ok(Some(Filter::Literal(part))),
        },
    }
}

fn kind(word: &str) -> Option<Filter> {
    match word {
        "null" => Some(Filter::Null),
        "bool" => Some(Filter::Bool),
        "int" => Some(Filter::Int),
        "float" => Some(Filter::Float),
        "string" => Some(Filter::Str),
        "array" => Some(Filter::Array),
        "object" => Some(Filter::Object),
        "callable" => Some(Filter::Callable),
        "truthy" => Some(Filter::Truthy),
        "falsy" => Some(Filter::Falsy),
        _ => None,
    }
}
