//! Two lists of parts in order as one.

ghost use Rattle.std.specs.Prelude.{◌≡◌, ◌∷◌, ◌++◌, [], map, IfOk, OnOk};
ghost use Rattle.stan_type_parts.specs.Parts.{part_of};
ghost use Rattle.stan_type_merge.specs.Merge.{AreTied, IsTied, above, below, merge};

use stan_base::OutOfMemory;
use stan_type_order::compare_parts;
use stan_type_parts::Part;
use std::alloc::Global;
use std::cmp::Ordering;

fn push_copy(alloc: Global, out: &mut Vec<Part>, part: &Part) -> Result<(), OutOfMemory>
    ensures { OnOk result (map part_of out.new.items ≡ map part_of out.old.items ++ part_of part.now ∷ []) }
{
    let copy = part.copy(alloc)?;
    out.push(copy)?;
    Ok(())
}

fn push_copies(alloc: Global, out: &mut Vec<Part>, parts: &[Part]) -> Result<(), OutOfMemory>
    ensures { OnOk result (map part_of out.new.items ≡ map part_of out.old.items ++ map part_of parts.now) }
{
    for part in parts {
        push_copy(alloc, out, part)?;
    }
    Ok(())
}

// Appends the parts in front that are below one, and gives those behind; one that is equal goes.
fn push_below<'a>(
    alloc: Global,
    out: &mut Vec<Part>,
    part: &Part,
    parts: &'a [Part],
) -> Result<&'a [Part], OutOfMemory>
    ensures appended { OnOk result (map part_of out.new.items ≡ map part_of out.old.items ++ below (part_of part.now) (map part_of parts.now)) }
    ensures behind { IfOk result (λ rest. map part_of rest.now ≡ above (part_of part.now) (map part_of parts.now)) }
    ensures tied { OnOk result (IsTied (part_of part.now) (map part_of parts.now)) }
{
    match parts.split_first() {
        None => Ok(parts),
        Some((first, others)) => match compare_parts(first, part) {
            Ordering::Less => {
                push_copy(alloc, out, first)?;
                push_below(alloc, out, part, others)
            }
            Ordering::Equal => Ok(others),
            Ordering::Greater => Ok(parts),
        },
    }
}

/// Appends two lists of parts in order as one.
pub fn push_merged(
    alloc: Global,
    out: &mut Vec<Part>,
    parts: &[Part],
    others: &[Part],
) -> Result<(), OutOfMemory>
    ensures appended { OnOk result (map part_of out.new.items ≡ map part_of out.old.items ++ merge (map part_of parts.now) (map part_of others.now)) }
    ensures tied { OnOk result (AreTied (map part_of parts.now) (map part_of others.now)) }
{
    match parts.split_first() {
        None => push_copies(alloc, out, others),
        Some((first, more)) => {
            let rest = push_below(alloc, out, first, others)?;
            push_copy(alloc, out, first)?;
            push_merged(alloc, out, more, rest)
        }
    }
}
