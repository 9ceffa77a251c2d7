//! Tests for one value.

ghost use Rattle.std.specs.Prelude.{◌≡◌, ◌++◌, ◌+ℤ◌, ◌-ℤ◌, ◌&&◌, ◌≤ℤ◌, int_le, map, OnOk};
ghost use Rattle.std.specs.Str.{bytes_eq};
ghost use Rattle.std.specs.Ordering.{int_eq};
ghost use Rattle.stan_model_types.specs.NormalForms.{is_of};
ghost use Rattle.stan_model_types.specs.TypeFilters as model;
ghost use Rattle.stan_type_parts.specs.Parts.{form_of, part_of};
ghost use Rattle.stan_type_laws.specs.Settled.{HasNumbers};

use crate::push::{push, push_copy, push_copy_where};
use stan_base::OutOfMemory;
use stan_type_normal::is_of;
use stan_type_parts::{Part, StringForm};
use std::alloc::Global;

/// Whether two texts are equal.
pub fn is(text: &[u8], other: &[u8]) -> bool
    ensures { result ≡ bytes_eq text.now other.now }
{
    text == other
}

fn is_empty(text: &[u8]) -> bool
    ensures { result ≡ model.is_empty text.now }
{
    match text {
        [] => true,
        _ => false,
    }
}

fn form_holds(text: &[u8], form: &StringForm) -> bool
    ensures { result ≡ model.form_holds text.now (form_of form.now) }
{
    match form {
        StringForm::Literal(other) => is(text, other.as_slice()),
        StringForm::NonEmpty => !is_empty(text),
        StringForm::Plain => true,
    }
}

/// Whether a part holds a text.
pub fn holds_text(text: &[u8], part: &Part) -> bool
    ensures { result ≡ model.holds_text text.now (part_of part.now) }
{
    match part {
        Part::Str(form) => form_holds(text, form),
        Part::ClassString(_) => !is_empty(text),
        _ => false,
    }
}

fn is_between(least: i64, number: i64, greatest: i64) -> bool
    ensures { result ≡ (int_le least number && int_le number greatest) }
{
    least <= number && number <= greatest
}

/// Whether a part holds an int.
pub fn holds_int(number: i64, part: &Part) -> bool
    ensures { result ≡ model.holds_int number (part_of part.now) }
{
    match part {
        Part::Int { least, greatest } => is_between(*least, number, *greatest),
        _ => false,
    }
}

/// Whether a part other than `mixed`, a template and `callable` holds the value.
pub fn holds_value(value: &Part, part: &Part) -> bool
    ensures { result ≡ model.holds_value (part_of value.now) (part_of part.now) }
{
    match value {
        Part::Int { least, .. } => holds_int(*least, part),
        Part::Str(StringForm::Literal(text)) => holds_text(text.as_slice(), part),
        Part::False => is_of(13, 13, part),
        Part::True => is_of(14, 14, part),
        Part::Null => is_of(15, 15, part),
        _ => false,
    }
}

// An int part without one of its ends.
fn push_without_int(
    out: &mut Vec<Part>,
    number: i64,
    least: i64,
    greatest: i64,
) -> Result<(), OutOfMemory>
    requires { least ≤ℤ greatest }
    ensures { OnOk result (map part_of out.new.items ≡ map part_of out.old.items ++ model.without_int number least greatest) }
{
    if number == least {
        push_above(out, least, greatest)
    } else if number == greatest {
        push(
            out,
            Part::Int {
                least,
                greatest: greatest - 1,
            },
        )
    } else {
        push(out, Part::Int { least, greatest })
    }
}

// An int part without its least.
fn push_above(out: &mut Vec<Part>, least: i64, greatest: i64) -> Result<(), OutOfMemory>
    requires { least ≤ℤ greatest }
    ensures { OnOk result (map part_of out.new.items ≡ map part_of out.old.items ++ model.without_int least least greatest) }
{
    if least == greatest {
        Ok(())
    } else {
        push(
            out,
            Part::Int {
                least: least + 1,
                greatest,
            },
        )
    }
}

fn is_text(text: &[u8], part: &Part) -> bool
    ensures { result ≡ model.is_text text.now (part_of part.now) }
{
    match part {
        Part::Str(StringForm::Literal(other)) => is(text, other.as_slice()),
        _ => false,
    }
}

/// Appends what is left of a part without a value: an equal part goes, and an end of an int part.
pub fn push_without_value(
    alloc: Global,
    out: &mut Vec<Part>,
    value: &Part,
    part: &Part,
) -> Result<(), OutOfMemory>
    requires { HasNumbers (part_of part.now) }
    ensures { OnOk result (map part_of out.new.items ≡ map part_of out.old.items ++ model.without_value (part_of value.now) (part_of part.now)) }
{
    match value {
        Part::Int { least: number, .. } => match part {
            Part::Int { least, greatest } => push_without_int(out, *number, *least, *greatest),
            _ => push_copy(alloc, out, part),
        },
        Part::Str(StringForm::Literal(text)) => {
            push_copy_where(alloc, out, part, !is_text(text.as_slice(), part))
        }
        Part::False => push_copy_where(alloc, out, part, !is_of(13, 13, part)),
        Part::True => push_copy_where(alloc, out, part, !is_of(14, 14, part)),
        Part::Null => push_copy_where(alloc, out, part, !is_of(15, 15, part)),
        _ => push_copy(alloc, out, part),
    }
}
