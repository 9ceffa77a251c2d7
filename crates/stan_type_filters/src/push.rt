//! Parts appended to a list.

ghost use Rattle.std.specs.Prelude.{◌≡◌, ◌∷◌, ◌++◌, [], if◌then◌else◌, map, OnOk};
ghost use Rattle.stan_type_parts.specs.Parts.{part_of};

use stan_base::OutOfMemory;
use stan_type_parts::Part;
use std::alloc::Global;

pub fn push(out: &mut Vec<Part>, part: Part) -> Result<(), OutOfMemory>
    ensures { OnOk result (map part_of out.new.items ≡ map part_of out.old.items ++ part_of part ∷ []) }
{
    out.push(part)?;
    Ok(())
}

pub fn push_copy(alloc: Global, out: &mut Vec<Part>, part: &Part) -> Result<(), OutOfMemory>
    ensures { OnOk result (map part_of out.new.items ≡ map part_of out.old.items ++ part_of part.now ∷ []) }
{
    let copy = part.copy(alloc)?;
    push(out, copy)
}

pub fn push_where(out: &mut Vec<Part>, part: Part, wanted: bool) -> Result<(), OutOfMemory>
    ensures { OnOk result (map part_of out.new.items ≡ map part_of out.old.items ++ (if wanted then part_of part ∷ [] else [])) }
{
    if wanted { push(out, part) } else { Ok(()) }
}

pub fn push_copy_where(
    alloc: Global,
    out: &mut Vec<Part>,
    part: &Part,
    wanted: bool,
) -> Result<(), OutOfMemory>
    ensures { OnOk result (map part_of out.new.items ≡ map part_of out.old.items ++ (if wanted then part_of part.now ∷ [] else [])) }
{
    if wanted {
        push_copy(alloc, out, part)
    } else {
        Ok(())
    }
}
