//! Parts in order, each once.

ghost use Rattle.std.specs.Prelude.{◌≡◌, ◌≤◌, ◌∷◌, ◌++◌, drop, if◌then◌else◌, length, map, take, MatchOption, OnOk};
ghost use Rattle.stan_model_types.specs.NormalForms.{put};
ghost use Rattle.stan_model_types.specs.TypeBytes.{part_order};
ghost use Rattle.stan_type_parts.specs.Parts.{part_of};

use stan_base::OutOfMemory;
use stan_type_order::compare_parts;
use stan_type_parts::Part;
use std::alloc::Global;
use std::cmp::Ordering;

// Where a part goes into a list in order. None where an equal one stands.
fn place(out: &[Part], part: &Part) -> Option<usize>
    ensures place { MatchOption result (put part_order (part_of part.now) (map part_of out.now) ≡ map part_of out.now) (λ i. put part_order (part_of part.now) (map part_of out.now) ≡ take i (map part_of out.now) ++ part_of part.now ∷ drop i (map part_of out.now)) }
    ensures within { MatchOption result (length out.now ≡ length out.now) (λ i. i ≤ length out.now) }
{
    for i in 0..out.len() {
        match compare_parts(part, &out[i]) {
            Ordering::Less => return Some(i),
            Ordering::Equal => return None,
            Ordering::Greater => {}
        }
    }
    Some(out.len())
}

/// Puts a part at its place in a list in order, unless an equal one stands there.
pub fn add(out: &mut Vec<Part>, part: Part) -> Result<(), OutOfMemory>
    ensures { OnOk result (map part_of out.new.items ≡ put part_order (part_of part) (map part_of out.old.items)) }
{
    match place(out.as_slice(), &part) {
        None => {}
        Some(i) => out.insert(i, part)?,
    }
    Ok(())
}

/// Puts a copy of a part at its place, where it is wanted.
pub fn add_copy(
    alloc: Global,
    out: &mut Vec<Part>,
    part: &Part,
    wanted: bool,
) -> Result<(), OutOfMemory>
    ensures { OnOk result (map part_of out.new.items ≡ (if wanted then put part_order (part_of part.now) (map part_of out.old.items) else map part_of out.old.items)) }
{
    if wanted {
        add(out, part.copy(alloc)?)
    } else {
        Ok(())
    }
}
