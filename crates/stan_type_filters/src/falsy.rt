//! What counts as false.

ghost use Rattle.std.specs.Prelude.{◌≡◌, ◌∷◌, ◌++◌, ◌||◌, ◌&&◌, [], if◌then◌else◌, codes, map, pos, true, IfOk, OnOk};
ghost use Rattle.std.specs.Ordering.{int_eq};
ghost use Rattle.std.specs.Str.{bytes_eq};
ghost use Rattle.stan_model_types.specs.TypeFilters as model;
ghost use Rattle.stan_model_types.specs.Types as types;
ghost use Rattle.stan_model_types.specs.Types.{of_parts};
ghost use Rattle.stan_type_parts.specs.Parts.{field_of, part_of};
ghost use Rattle.stan_type_filters.specs.Filters.{value_of};

use crate::push::{push, push_copy, push_copy_where, push_where};
use crate::value::{holds_int, holds_text, is};
use sqlite_items::Items;
use stan_base::OutOfMemory;
use stan_type_normal::{has_required, is_of};
use stan_type_parts::{Field, Part, PhpType, StringForm};
use std::alloc::Global;

/// A value that counts as false.
#[derive(Clone, Copy)]
pub enum FalseValue {
    EmptyArray,
    Zero,
    EmptyText,
    ZeroText,
    FalseItself,
    NullItself,
}

// The part of one value.
fn false_part(alloc: Global, value: FalseValue) -> Result<Part, OutOfMemory>
    ensures { IfOk result (λ part. part_of part ≡ model.false_part (value_of value)) }
{
    match value {
        FalseValue::EmptyArray => Ok(Part::Shape(Vec::new(alloc))),
        FalseValue::Zero => Ok(Part::Int {
            least: 0,
            greatest: 0,
        }),
        FalseValue::EmptyText => Ok(Part::Str(StringForm::Literal(Items::from_slice(alloc, b"")?))),
        FalseValue::ZeroText => Ok(Part::Str(StringForm::Literal(Items::from_slice(alloc, b"0")?))),
        FalseValue::FalseItself => Ok(Part::False),
        FalseValue::NullItself => Ok(Part::Null),
    }
}

fn may_be_empty(part: &Part) -> bool
    ensures { result ≡ model.may_be_empty (part_of part.now) }
{
    match part {
        Part::Array { is_non_empty, .. } => !*is_non_empty,
        Part::Shape(fields) => !has_required(fields.as_slice()),
        Part::Callable => true,
        _ => false,
    }
}

fn may_be_text(text: &[u8], part: &Part) -> bool
    ensures { result ≡ model.may_be_text text.now (part_of part.now) }
{
    match part {
        Part::Callable => true,
        _ => holds_text(text, part),
    }
}

fn may_be_null(part: &Part) -> bool
    ensures { result ≡ model.may_be_null (part_of part.now) }
{
    match part {
        Part::Null => true,
        Part::Void => true,
        _ => false,
    }
}

fn may_be(value: FalseValue, part: &Part) -> bool
    ensures { result ≡ model.may_be (value_of value) (part_of part.now) }
{
    match value {
        FalseValue::EmptyArray => may_be_empty(part),
        FalseValue::Zero => holds_int(0, part),
        FalseValue::EmptyText => may_be_text(b"", part),
        FalseValue::ZeroText => may_be_text(b"0", part),
        FalseValue::FalseItself => is_of(13, 13, part),
        FalseValue::NullItself => may_be_null(part),
    }
}

// A template by its bound.
#[cycle(holds)]
fn may_hold(value: FalseValue, part: &Part) -> bool
    ensures { result ≡ model.may_hold (value_of value) (part_of part.now) }
{
    match part {
        Part::Template { bound, .. } => may_hold_some(value, bound.parts()),
        Part::ImplicitMixed => true,
        Part::ExplicitMixed => true,
        _ => may_be(value, part),
    }
}

#[cycle(holds)]
fn may_hold_some(value: FalseValue, parts: &[Part]) -> bool
    ensures { result ≡ model.may_hold_some (value_of value) (of_parts (map part_of parts.now)) }
{
    match parts.split_first() {
        None => false,
        Some((first, others)) => may_hold(value, first) || may_hold_some(value, others),
    }
}

#[cycle(floats)]
fn has_float(part: &Part) -> bool
    ensures { result ≡ model.has_float (part_of part.now) }
{
    match part {
        Part::Template { bound, .. } => has_some_float(bound.parts()),
        Part::Float => true,
        _ => false,
    }
}

#[cycle(floats)]
fn has_some_float(parts: &[Part]) -> bool
    ensures { result ≡ model.has_some_float (of_parts (map part_of parts.now)) }
{
    match parts.split_first() {
        None => false,
        Some((first, others)) => has_float(first) || has_some_float(others),
    }
}

// Appends a value where a part may be it.
fn push_false(
    alloc: Global,
    out: &mut Vec<Part>,
    value: FalseValue,
    part: &Part,
) -> Result<(), OutOfMemory>
    ensures { OnOk result (map part_of out.new.items ≡ map part_of out.old.items ++ (if model.may_hold (value_of value) (part_of part.now) then model.false_part (value_of value) ∷ [] else [])) }
{
    if may_hold(value, part) {
        push(out, false_part(alloc, value)?)
    } else {
        Ok(())
    }
}

// Appends the values of a part that count as false, and `float` where it has that part.
fn push_false_parts(alloc: Global, out: &mut Vec<Part>, part: &Part) -> Result<(), OutOfMemory>
    ensures { OnOk result (map part_of out.new.items ≡ map part_of out.old.items ++ model.false_parts (part_of part.now)) }
{
    push_false(alloc, out, FalseValue::EmptyArray, part)?;
    push_false(alloc, out, FalseValue::Zero, part)?;
    push_false(alloc, out, FalseValue::EmptyText, part)?;
    push_false(alloc, out, FalseValue::ZeroText, part)?;
    push_false(alloc, out, FalseValue::FalseItself, part)?;
    push_false(alloc, out, FalseValue::NullItself, part)?;
    push_where(out, Part::Float, has_float(part))?;
    Ok(())
}

/// Appends what of a part counts as false; `mixed` stays.
pub fn push_falsy(alloc: Global, out: &mut Vec<Part>, part: &Part) -> Result<(), OutOfMemory>
    ensures { OnOk result (map part_of out.new.items ≡ map part_of out.old.items ++ model.falsy_kept (part_of part.now)) }
{
    match part {
        Part::ImplicitMixed => push(out, Part::ImplicitMixed),
        Part::ExplicitMixed => push(out, Part::ExplicitMixed),
        _ => push_false_parts(alloc, out, part),
    }
}

fn is_false_text(text: &[u8]) -> bool
    ensures { result ≡ (model.is_empty text.now || bytes_eq text.now (codes "0")) }
{
    match text {
        [] => true,
        _ => is(text, b"0"),
    }
}

fn is_zero(least: i64, greatest: i64) -> bool
    ensures { result ≡ (int_eq least (pos 0) && int_eq greatest (pos 0)) }
{
    least == 0 && greatest == 0
}

fn push_non_empty(
    alloc: Global,
    out: &mut Vec<Part>,
    key: &PhpType,
    value: &PhpType,
    is_list: bool,
) -> Result<(), OutOfMemory>
    ensures { OnOk result (map part_of out.new.items ≡ map part_of out.old.items ++ types.Array key.now value.now is_list true ∷ []) }
{
    let key = key.copy(alloc)?;
    let value = value.copy(alloc)?;
    push(
        out,
        Part::Array {
            key,
            value,
            is_list,
            is_non_empty: true,
        },
    )
}

// Appends a shape that has fields.
fn push_shape(
    alloc: Global,
    out: &mut Vec<Part>,
    part: &Part,
    fields: &[Field],
) -> Result<(), OutOfMemory>
    requires { part_of part.now ≡ types.Shape (types.of_fields (map field_of fields.now)) }
    ensures { OnOk result (map part_of out.new.items ≡ map part_of out.old.items ++ model.truthy_kept (part_of part.now)) }
{
    match fields.split_first() {
        None => Ok(()),
        Some(_) => push_copy(alloc, out, part),
    }
}

/// Appends what of a part counts as true: a string is non-empty, and so is an array.
pub fn push_truthy(alloc: Global, out: &mut Vec<Part>, part: &Part) -> Result<(), OutOfMemory>
    ensures { OnOk result (map part_of out.new.items ≡ map part_of out.old.items ++ model.truthy_kept (part_of part.now)) }
{
    match part {
        Part::Array {
            key,
            value,
            is_list,
            ..
        } => push_non_empty(alloc, out, key, value, *is_list),
        Part::Shape(fields) => push_shape(alloc, out, part, fields.as_slice()),
        Part::Int { least, greatest } => {
            push_copy_where(alloc, out, part, !is_zero(*least, *greatest))
        }
        Part::Str(StringForm::Literal(text)) => {
            push_copy_where(alloc, out, part, !is_false_text(text.as_slice()))
        }
        Part::Str(StringForm::Plain) => push(out, Part::Str(StringForm::NonEmpty)),
        Part::False => Ok(()),
        Part::Null => Ok(()),
        _ => push_copy(alloc, out, part),
    }
}
