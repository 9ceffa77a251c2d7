//! The texts of names, numbers, strings and keys, and the tests that a text hangs on.

ghost use Rattle.std.specs.Prelude.{◌≡◌, ◌++◌, OnOk, codes, map, string_bytes};
ghost use Rattle.std.specs.Fmt.{signed_decimal};
ghost use Rattle.stan_base.specs.Name.{name_bytes};
ghost use Rattle.stan_model_types.specs.Types.{of_parts};
ghost use Rattle.stan_model_types.specs.TypeTexts as model;
ghost use Rattle.stan_type_parts.specs.Parts.{form_of, key_of, part_of};

use bstr::ByteSlice;
use itoa::Buffer;
use stan_base::{Name, OutOfMemory};
use stan_type_parts::{Key, Part, PhpType, StringForm};

/// Adds a text.
pub fn put(out: &mut String, text: &str) -> Result<(), OutOfMemory>
    ensures { OnOk result (string_bytes out.new ≡ string_bytes out.old ++ text.now) }
{
    out.push_str(text)?;
    Ok(())
}

/// Adds bytes; those that aren't UTF-8 are replaced.
pub fn put_shown(out: &mut String, bytes: &[u8]) -> Result<(), OutOfMemory>
    ensures { OnOk result (string_bytes out.new ≡ string_bytes out.old ++ model.shown bytes.now) }
{
    bytes.to_str_lossy_into(out)?;
    Ok(())
}

/// Adds names with `&` between them.
pub fn put_names(out: &mut String, names: &[Name]) -> Result<(), OutOfMemory>
    ensures { OnOk result (string_bytes out.new ≡ string_bytes out.old ++ model.meeting_text (map name_bytes names.now)) }
{
    match names.split_first() {
        None => Ok(()),
        Some((first, others)) => {
            put_shown(out, first.bytes())?;
            put_more_names(out, others)
        }
    }
}

fn put_more_names(out: &mut String, names: &[Name]) -> Result<(), OutOfMemory>
    ensures { OnOk result (string_bytes out.new ≡ string_bytes out.old ++ model.more_names (map name_bytes names.now)) }
{
    for name in names {
        put(out, "&")?;
        put_shown(out, name.bytes())?;
    }
    Ok(())
}

/// Adds a literal in `'`, or the word for other strings.
pub fn put_form(out: &mut String, form: &StringForm) -> Result<(), OutOfMemory>
    ensures { OnOk result (string_bytes out.new ≡ string_bytes out.old ++ model.form_text (form_of form.now)) }
{
    match form {
        StringForm::Literal(text) => {
            put(out, "'")?;
            put_shown(out, text.as_slice())?;
            put(out, "'")
        }
        StringForm::NonEmpty => put(out, "non-empty-string"),
        StringForm::Plain => put(out, "string"),
    }
}

/// Adds a number in decimal digits.
pub fn put_number(out: &mut String, number: i64) -> Result<(), OutOfMemory>
    ensures { OnOk result (string_bytes out.new ≡ string_bytes out.old ++ signed_decimal number) }
{
    let mut buffer = Buffer::new();
    put(out, buffer.format(number))
}

fn put_least(out: &mut String, number: i64) -> Result<(), OutOfMemory>
    ensures { OnOk result (string_bytes out.new ≡ string_bytes out.old ++ model.least_text number) }
{
    if number == i64::MIN {
        put(out, "min")
    } else {
        put_number(out, number)
    }
}

fn put_greatest(out: &mut String, number: i64) -> Result<(), OutOfMemory>
    ensures { OnOk result (string_bytes out.new ≡ string_bytes out.old ++ model.greatest_text number) }
{
    if number == i64::MAX {
        put(out, "max")
    } else {
        put_number(out, number)
    }
}

fn put_range(out: &mut String, least: i64, greatest: i64) -> Result<(), OutOfMemory>
    ensures { OnOk result (string_bytes out.new ≡ string_bytes out.old ++ (codes "int<" ++ (model.least_text least ++ (codes ", " ++ (model.greatest_text greatest ++ codes ">"))))) }
{
    put(out, "int<")?;
    put_least(out, least)?;
    put(out, ", ")?;
    put_greatest(out, greatest)?;
    put(out, ">")
}

/// Adds the text of the ints from one to another.
pub fn put_ints(out: &mut String, least: i64, greatest: i64) -> Result<(), OutOfMemory>
    ensures { OnOk result (string_bytes out.new ≡ string_bytes out.old ++ model.int_text least greatest) }
{
    if least == greatest {
        put_number(out, least)
    } else if least == i64::MIN && greatest == i64::MAX {
        put(out, "int")
    } else {
        put_range(out, least, greatest)
    }
}

/// Adds the key of a field.
pub fn put_key(out: &mut String, key: &Key) -> Result<(), OutOfMemory>
    ensures { OnOk result (string_bytes out.new ≡ string_bytes out.old ++ model.key_text (key_of key.now)) }
{
    match key {
        Key::Int(number) => put_number(out, *number),
        Key::Text(text) => put_shown(out, text.as_slice()),
    }
}

/// What stands before a part, unless it is the first.
pub fn bar(first: bool) -> &'static str
    ensures { result.now ≡ model.bar first }
{
    if first { "" } else { "|" }
}

/// What stands behind the key of a field.
pub fn mark(optional: bool) -> &'static str
    ensures { result.now ≡ model.optional_text optional }
{
    if optional { "?: " } else { ": " }
}

/// What an array begins with, by its flags.
pub fn array_word(is_list: bool, is_non_empty: bool) -> &'static str
    ensures { result.now ≡ model.array_word is_list is_non_empty }
{
    match (is_list, is_non_empty) {
        (false, false) => "array<",
        (true, false) => "list<",
        (false, true) => "non-empty-array<",
        (true, true) => "non-empty-list<",
    }
}

fn is_all_ints(part: &Part) -> bool
    ensures { result ≡ model.is_all_ints (part_of part.now) }
{
    match part {
        Part::Int { least, greatest } => *least == i64::MIN && *greatest == i64::MAX,
        _ => false,
    }
}

fn is_all_strings(part: &Part) -> bool
    ensures { result ≡ model.is_all_strings (part_of part.now) }
{
    match part {
        Part::Str(StringForm::Plain) => true,
        _ => false,
    }
}

fn is_implicit(part: &Part) -> bool
    ensures { result ≡ model.is_implicit (part_of part.now) }
{
    match part {
        Part::ImplicitMixed => true,
        _ => false,
    }
}

// Whether these are one part, for all strings.
fn are_all_strings(parts: &[Part]) -> bool
    ensures { result ≡ model.is_only model.is_all_strings (of_parts (map part_of parts.now)) }
{
    match parts.split_first() {
        None => false,
        Some((first, others)) => match others.split_first() {
            None => is_all_strings(first),
            Some(_) => false,
        },
    }
}

// Whether these are one part, implicit `mixed`.
fn are_implicit(parts: &[Part]) -> bool
    ensures { result ≡ model.is_only model.is_implicit (of_parts (map part_of parts.now)) }
{
    match parts.split_first() {
        None => false,
        Some((first, others)) => match others.split_first() {
            None => is_implicit(first),
            Some(_) => false,
        },
    }
}

// Whether a key is `int|string`.
fn is_any_key(key: &PhpType) -> bool
    ensures { result ≡ model.is_any_key key.now }
{
    match key.parts().split_first() {
        None => false,
        Some((first, others)) => is_all_ints(first) && are_all_strings(others),
    }
}

/// Whether nothing is said of an array.
pub fn is_any_array(key: &PhpType, value: &PhpType, is_list: bool, is_non_empty: bool) -> bool
    ensures { result ≡ model.is_any_array key.now value.now is_list is_non_empty }
{
    !is_list && !is_non_empty && is_any_key(key) && are_implicit(value.parts())
}

/// Whether a part is `false`.
pub fn is_false(part: &Part) -> bool
    ensures { result ≡ model.is_false (part_of part.now) }
{
    match part {
        Part::False => true,
        _ => false,
    }
}

/// Whether a part is `true`.
pub fn is_true(part: &Part) -> bool
    ensures { result ≡ model.is_true (part_of part.now) }
{
    match part {
        Part::True => true,
        _ => false,
    }
}

/// Whether the first of some parts is `true`.
pub fn begins_true(parts: &[Part]) -> bool
    ensures { result ≡ model.begins_true (of_parts (map part_of parts.now)) }
{
    match parts.split_first() {
        None => false,
        Some((first, _)) => is_true(first),
    }
}
