//! Literals beside other strings.

ghost use Rattle.std.specs.Prelude.{◌≡◌, ◌||◌, count_by, filter, map, OnOk};
ghost use Rattle.std.specs.List.{list_any};
ghost use Rattle.stan_model_types.specs.NormalForms as model;
ghost use Rattle.stan_model_types.specs.TypeBytes.{part_order};
ghost use Rattle.stan_type_parts.specs.Parts.{form_of, part_of};

use crate::place::{add, add_copy};
use stan_base::OutOfMemory;
use stan_type_parts::{Part, StringForm};
use std::alloc::Global;

fn is_plain(part: &Part) -> bool
    ensures { result ≡ model.is_plain (part_of part.now) }
{
    match part {
        Part::Str(StringForm::Plain) => true,
        _ => false,
    }
}

fn is_non_empty(part: &Part) -> bool
    ensures { result ≡ model.is_non_empty (part_of part.now) }
{
    match part {
        Part::Str(StringForm::NonEmpty) => true,
        _ => false,
    }
}

// A string part that is no literal.
fn is_form(part: &Part) -> bool
    ensures { result ≡ (model.is_plain (part_of part.now) || model.is_non_empty (part_of part.now)) }
{
    is_plain(part) || is_non_empty(part)
}

fn has_plain(parts: &[Part]) -> bool
    ensures { result ≡ list_any (λ p. model.is_plain (part_of p)) parts.now }
{
    parts.iter().any(is_plain)
}

fn has_non_empty(parts: &[Part]) -> bool
    ensures { result ≡ list_any (λ p. model.is_non_empty (part_of p)) parts.now }
{
    parts.iter().any(is_non_empty)
}

// A literal that is none of the others' strings.
fn is_free_literal(plain: bool, non_empty: bool, part: &Part) -> bool
    ensures { result ≡ model.is_free_literal plain non_empty (part_of part.now) }
{
    match part {
        Part::Str(StringForm::Literal(text)) => {
            if text.is_empty() {
                !plain
            } else {
                !(plain || non_empty)
            }
        }
        _ => false,
    }
}

fn count_literals(plain: bool, non_empty: bool, parts: &[Part]) -> usize
    ensures { result ≡ count_by (λ p. model.is_free_literal plain non_empty (part_of p)) parts.now }
{
    parts
        .iter()
        .filter(|part| is_free_literal(plain, non_empty, part))
        .count()
}

fn add_literals(
    alloc: Global,
    out: &mut Vec<Part>,
    parts: &[Part],
    plain: bool,
    non_empty: bool,
) -> Result<(), OutOfMemory>
    ensures { OnOk result (map part_of out.new.items ≡ model.put_all part_order (filter (model.is_free_literal plain non_empty) (map part_of parts.now)) (map part_of out.old.items)) }
{
    for part in parts {
        let wanted = is_free_literal(plain, non_empty, part);
        add_copy(alloc, out, part, wanted)?;
    }
    Ok(())
}

fn add_forms(alloc: Global, out: &mut Vec<Part>, parts: &[Part]) -> Result<(), OutOfMemory>
    ensures { OnOk result (map part_of out.new.items ≡ model.put_all part_order (filter (λ p. model.is_plain p || model.is_non_empty p) (map part_of parts.now)) (map part_of out.old.items)) }
{
    for part in parts {
        add_copy(alloc, out, part, is_form(part))?;
    }
    Ok(())
}

fn add_few_literals(alloc: Global, out: &mut Vec<Part>, parts: &[Part]) -> Result<(), OutOfMemory>
    ensures { OnOk result (map part_of out.new.items ≡ model.put_all part_order (model.few_literals (model.free_literals (map part_of parts.now))) (map part_of out.old.items)) }
{
    let plain = has_plain(parts);
    let non_empty = has_non_empty(parts);
    if count_literals(plain, non_empty, parts) > 32 {
        add(out, Part::Str(StringForm::Plain))?;
        Ok(())
    } else {
        add_literals(alloc, out, parts, plain, non_empty)?;
        Ok(())
    }
}

/// Puts the string parts in order: a literal goes where a greater part is there, and more than 32 literals are all strings.
pub fn add_strings(alloc: Global, out: &mut Vec<Part>, parts: &[Part]) -> Result<(), OutOfMemory>
    ensures { OnOk result (map part_of out.new.items ≡ model.put_all part_order (model.string_parts (map part_of parts.now)) (map part_of out.old.items)) }
{
    add_few_literals(alloc, out, parts)?;
    add_forms(alloc, out, parts)?;
    Ok(())
}
