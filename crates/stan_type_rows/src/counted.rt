//! Words with a count.

use crate::operations::list;
use crate::parts::{ints, literal};
use stan_base::{Name, OutOfMemory};
use stan_type::{Field, Key, Part, PhpType, one, union};
use std::alloc::Global;

/// The type of a word with a name, `*` and a count.
///
/// - `numbers*3` is `1|3|5`, and `literals*3` is `'10'|'11'|'12'`.
/// - `letters*3` is `'xxx'`.
/// - `lists*3` is a list of lists of lists of the last type.
/// - `arguments*3` is an object `C` of three times the last type, and `fields*3` a shape of it with the keys 0, 1 and 2.
pub fn counted(
    alloc: Global,
    types: &mut Vec<PhpType>,
    name: &str,
    count: u32,
) -> Result<Option<PhpType>, OutOfMemory> {
    match name {
        "numbers" => Ok(Some(numbers(alloc, count)?)),
        "literals" => Ok(Some(literals(alloc, count)?)),
        "letters" => Ok(Some(letters(alloc, count)?)),
        _ => match types.pop() {
            None => Ok(None),
            Some(last) => of_last(alloc, name, count, last),
        },
    }
}

fn of_last(
    alloc: Global,
    name: &str,
    count: u32,
    last: PhpType,
) -> Result<Option<PhpType>, OutOfMemory> {
    match name {
        "lists" => Ok(Some(lists(alloc, count, last)?)),
        "arguments" => Ok(Some(arguments(alloc, count, &last)?)),
        "fields" => Ok(Some(fields(alloc, count, &last)?)),
        _ => Ok(None),
    }
}

fn never(alloc: Global) -> Result<PhpType, OutOfMemory> {
    one(alloc, ints(1, 0))
}

fn numbers(alloc: Global, count: u32) -> Result<PhpType, OutOfMemory> {
    let mut all = never(alloc)?;
    for place in 0..count {
        let number = i64::from(place).saturating_mul(2).saturating_add(1);
        all = union(alloc, &all, &one(alloc, ints(number, number))?)?;
    }
    Ok(all)
}

fn literals(alloc: Global, count: u32) -> Result<PhpType, OutOfMemory> {
    let mut all = never(alloc)?;
    for place in 0..count {
        let number = i64::from(place).saturating_add(10);
        let text = format!(in alloc; "{number}")?;
        all = union(alloc, &all, &one(alloc, literal(alloc, &text)?)?)?;
    }
    Ok(all)
}

fn letters(alloc: Global, count: u32) -> Result<PhpType, OutOfMemory> {
    let mut text = String::new(alloc);
    for _ in 0..count {
        text.push('x')?;
    }
    one(alloc, literal(alloc, &text)?)
}

fn lists(alloc: Global, count: u32, last: PhpType) -> Result<PhpType, OutOfMemory> {
    let mut made = last;
    for _ in 0..count {
        made = list(alloc, made, false)?;
    }
    Ok(made)
}

fn arguments(alloc: Global, count: u32, last: &PhpType) -> Result<PhpType, OutOfMemory> {
    let mut arguments = Vec::new(alloc);
    for _ in 0..count {
        arguments.push(last.copy(alloc)?)?;
    }
    let name = Name::new(alloc, b"C")?;
    one(alloc, Part::Object { name, arguments })
}

fn fields(alloc: Global, count: u32, last: &PhpType) -> Result<PhpType, OutOfMemory> {
    let mut fields = Vec::new(alloc);
    for place in 0..count {
        fields.push(Field {
            key: Key::Int(i64::from(place)),
            optional: false,
            value: last.copy(alloc)?,
        })?;
    }
    one(alloc, Part::Shape(fields))
}
