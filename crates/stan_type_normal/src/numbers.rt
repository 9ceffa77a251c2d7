//! Ranges of numbers that stand apart.

ghost use Rattle.std.specs.Prelude.{◌≡◌, ◌∷◌, ◌++◌, ◌+ℤ◌, int_lt, map, pos, [], IfOk, OnOk};
ghost use Rattle.stan_model_types.specs.NormalForms as model;
ghost use Rattle.stan_model_types.specs.TypeBytes.{part_order};
ghost use Rattle.stan_type_parts.specs.Parts.{part_of};

use crate::place::add;
use stan_base::OutOfMemory;
use stan_type_parts::Part;
use std::alloc::Global;

fn is_apart(greatest: i64, least: i64) -> bool
    ensures { result ≡ int_lt (greatest +ℤ pos 1) least }
{
    greatest < least && greatest + 1 < least
}

// Appends the range united with ranges that rise and stand apart.
fn put_range(
    out: &mut Vec<(i64, i64)>,
    ranges: &[(i64, i64)],
    least: i64,
    greatest: i64,
) -> Result<(), OutOfMemory>
    ensures { OnOk result (out.new.items ≡ out.old.items ++ model.put_range least greatest ranges.now) }
{
    match ranges.split_first() {
        None => {
            out.push((least, greatest))?;
            Ok(())
        }
        Some((first, others)) => {
            if is_apart(first.1, least) {
                out.push(*first)?;
                put_range(out, others, least, greatest)
            } else if is_apart(greatest, first.0) {
                push_below(out, (least, greatest), *first, others)
            } else {
                put_range(out, others, least.min(first.0), greatest.max(first.1))
            }
        }
    }
}

fn push_below(
    out: &mut Vec<(i64, i64)>,
    range: (i64, i64),
    first: (i64, i64),
    others: &[(i64, i64)],
) -> Result<(), OutOfMemory>
    ensures { OnOk result (out.new.items ≡ out.old.items ++ range ∷ first ∷ others.now) }
{
    out.push(range)?;
    out.push(first)?;
    out.extend_from_slice(others)?;
    Ok(())
}

// The ranges with that of a part united.
fn with_range(
    alloc: Global,
    ranges: Vec<(i64, i64)>,
    part: &Part,
) -> Result<Vec<(i64, i64)>, OutOfMemory>
    ensures { IfOk result (λ united. united.items ≡ model.put_int (part_of part.now) ranges.items) }
{
    match part {
        Part::Int { least, greatest } => {
            let mut united = Vec::with_capacity(alloc, ranges.len().saturating_add(1))?;
            put_range(&mut united, ranges.as_slice(), *least, *greatest)?;
            Ok(united)
        }
        _ => Ok(ranges),
    }
}

// The ranges of all int parts.
fn ranges_of(alloc: Global, parts: &[Part]) -> Result<Vec<(i64, i64)>, OutOfMemory>
    ensures { IfOk result (λ ranges. ranges.items ≡ model.put_ints (map part_of parts.now) []) }
{
    let mut ranges = Vec::new(alloc);
    for part in parts {
        ranges = with_range(alloc, ranges, part)?;
    }
    Ok(ranges)
}

fn last_greatest(greatest: i64, ranges: &[(i64, i64)]) -> i64
    ensures { result ≡ model.last_greatest greatest ranges.now }
{
    match ranges.split_first() {
        None => greatest,
        Some((first, others)) => last_greatest(first.1, others),
    }
}

/// Puts the ranges of int parts in order: those that touch or overlap are one, and more than 32 are one.
pub fn add_ints(alloc: Global, out: &mut Vec<Part>, parts: &[Part]) -> Result<(), OutOfMemory>
    ensures { OnOk result (map part_of out.new.items ≡ model.put_all part_order (model.int_parts (map part_of parts.now)) (map part_of out.old.items)) }
{
    let ranges = ranges_of(alloc, parts)?;
    if ranges.len() > 32 {
        add_hull(out, ranges.as_slice())
    } else {
        add_ranges(out, ranges.as_slice())
    }
}

fn add_hull(out: &mut Vec<Part>, ranges: &[(i64, i64)]) -> Result<(), OutOfMemory>
    ensures { OnOk result (map part_of out.new.items ≡ model.put_all part_order (map model.range_part (model.hull ranges.now)) (map part_of out.old.items)) }
{
    match ranges.split_first() {
        None => Ok(()),
        Some((first, others)) => {
            let greatest = last_greatest(first.1, others);
            add(
                out,
                Part::Int {
                    least: first.0,
                    greatest,
                },
            )
        }
    }
}

fn add_ranges(out: &mut Vec<Part>, ranges: &[(i64, i64)]) -> Result<(), OutOfMemory>
    ensures { OnOk result (map part_of out.new.items ≡ model.put_all part_order (map model.range_part ranges.now) (map part_of out.old.items)) }
{
    match ranges.split_first() {
        None => Ok(()),
        Some((first, others)) => {
            add(
                out,
                Part::Int {
                    least: first.0,
                    greatest: first.1,
                },
            )?;
            add_ranges(out, others)
        }
    }
}
