//! Words that take types, and words with names.

use crate::parts::{bytes_of, filter, ints};
use sqlite_items::Items;
use stan_base::{Name, OutOfMemory};
use stan_rows::number;
use stan_type::{Field, Key, Part, PhpType, one, union};
use stan_type_filters::{keep, without};
use std::alloc::Global;

/// What a word makes of the last types: their union, an array, or a class-string.
pub fn operation(
    alloc: Global,
    types: &mut Vec<PhpType>,
    word: &str,
) -> Result<Option<PhpType>, OutOfMemory> {
    let Some(last) = types.pop() else {
        return Ok(None);
    };
    match word {
        "list" => Ok(Some(list(alloc, last, false)?)),
        "non-empty-list" => Ok(Some(list(alloc, last, true)?)),
        "class-of" => Ok(Some(one(alloc, Part::ClassString(Some(last)))?)),
        _ => match types.pop() {
            None => Ok(None),
            Some(first) => both(alloc, word, first, last),
        },
    }
}

/// The list of a value, with the key of a written list.
pub fn list(alloc: Global, value: PhpType, is_non_empty: bool) -> Result<PhpType, OutOfMemory> {
    let key = one(alloc, ints(0, i64::MAX))?;
    one(
        alloc,
        Part::Array {
            key,
            value,
            is_list: true,
            is_non_empty,
        },
    )
}

fn both(
    alloc: Global,
    word: &str,
    first: PhpType,
    last: PhpType,
) -> Result<Option<PhpType>, OutOfMemory> {
    match word {
        "|" => Ok(Some(union(alloc, &first, &last)?)),
        "array" => Ok(Some(array(alloc, first, last, false, false)?)),
        "non-empty-array" => Ok(Some(array(alloc, first, last, false, true)?)),
        "keyed-list" => Ok(Some(array(alloc, first, last, true, false)?)),
        _ => Ok(None),
    }
}

fn array(
    alloc: Global,
    key: PhpType,
    value: PhpType,
    is_list: bool,
    is_non_empty: bool,
) -> Result<PhpType, OutOfMemory> {
    one(
        alloc,
        Part::Array {
            key,
            value,
            is_list,
            is_non_empty,
        },
    )
}

/// The type of a word with a name, `=` and fields: `=C`, `static=C`, `meet=A&B`, `object=C:2` for an object of the last two types,
/// `template=f:T` for one whose bound is the last type, `shape=a,b?,0` for a shape of the last three; `keep=int` and `without=int` are
/// what a test keeps of the last type, and what it takes away.
pub fn named(
    alloc: Global,
    types: &mut Vec<PhpType>,
    name: &str,
    fields: &str,
) -> Result<Option<PhpType>, OutOfMemory> {
    let part = match name {
        "keep" => return tested(alloc, types, fields, true),
        "without" => return tested(alloc, types, fields, false),
        "" => Some(object(alloc, fields, Vec::new(alloc))?),
        "static" => Some(Part::Static(name_of(alloc, fields)?)),
        "meet" => Some(Part::Meeting(names_of(alloc, fields)?)),
        "object" => object_of(alloc, types, fields)?,
        "template" => template(alloc, types, fields)?,
        "shape" => shape(alloc, types, fields)?,
        _ => None,
    };
    match part {
        None => Ok(None),
        Some(part) => Ok(Some(one(alloc, part)?)),
    }
}

fn tested(
    alloc: Global,
    types: &mut Vec<PhpType>,
    word: &str,
    kept: bool,
) -> Result<Option<PhpType>, OutOfMemory> {
    let Some(filter) = filter(alloc, word)? else {
        return Ok(None);
    };
    let Some(last) = types.pop() else {
        return Ok(None);
    };
    if kept {
        Ok(Some(keep(alloc, &last, &filter)?))
    } else {
        Ok(Some(without(alloc, &last, &filter)?))
    }
}

fn name_of(alloc: Global, word: &str) -> Result<Name, OutOfMemory> {
    Name::new(alloc, &bytes_of(alloc, word)?)
}

fn names_of(alloc: Global, words: &str) -> Result<Vec<Name>, OutOfMemory> {
    let mut names = Vec::new(alloc);
    for word in words.split('&') {
        if !word.is_empty() {
            names.push(name_of(alloc, word)?)?;
        }
    }
    Ok(names)
}

fn object(alloc: Global, name: &str, arguments: Vec<PhpType>) -> Result<Part, OutOfMemory> {
    let name = name_of(alloc, name)?;
    Ok(Part::Object { name, arguments })
}

// The last types, or None where there are fewer.
fn take_last(
    alloc: Global,
    types: &mut Vec<PhpType>,
    count: u32,
) -> Result<Option<Vec<PhpType>>, OutOfMemory> {
    let mut taken = Vec::new(alloc);
    for _ in 0..count {
        match types.pop() {
            None => return Ok(None),
            Some(t) => taken.push(t)?,
        }
    }
    taken.reverse();
    Ok(Some(taken))
}

fn object_of(
    alloc: Global,
    types: &mut Vec<PhpType>,
    fields: &str,
) -> Result<Option<Part>, OutOfMemory> {
    let Some((name, count)) = fields.split_once(":") else {
        return Ok(None);
    };
    match take_last(alloc, types, number(count))? {
        None => Ok(None),
        Some(arguments) => Ok(Some(object(alloc, name, arguments)?)),
    }
}

fn template(
    alloc: Global,
    types: &mut Vec<PhpType>,
    fields: &str,
) -> Result<Option<Part>, OutOfMemory> {
    let Some((owner, name)) = fields.split_once(":") else {
        return Ok(None);
    };
    let Some(bound) = types.pop() else {
        return Ok(None);
    };
    let owner = name_of(alloc, owner)?;
    let name = name_of(alloc, name)?;
    Ok(Some(Part::Template { owner, name, bound }))
}

// The last key of the written ones has the last type.
fn shape(alloc: Global, types: &mut Vec<PhpType>, keys: &str) -> Result<Option<Part>, OutOfMemory> {
    let mut fields = Vec::new(alloc);
    for word in keys.rsplit(',') {
        if !word.is_empty() {
            let Some(value) = types.pop() else {
                return Ok(None);
            };
            fields.push(field(alloc, word, value)?)?;
        }
    }
    fields.reverse();
    Ok(Some(Part::Shape(fields)))
}

fn field(alloc: Global, word: &str, value: PhpType) -> Result<Field, OutOfMemory> {
    let (word, optional) = match word.strip_suffix("?") {
        None => (word, false),
        Some(word) => (word, true),
    };
    let key = match word.parse::<i64>() {
        Ok(number) => Key::Int(number),
        Err(_) => Key::Text(Items::from_vec(bytes_of(alloc, word)?)),
    };
    Ok(Field {
        key,
        optional,
        value,
    })
}
