//! The parts of some kinds.

ghost use Rattle.std.specs.Prelude.{◌≡◌, count_by, map, OnOk};
ghost use Rattle.std.specs.List.{list_any};
ghost use Rattle.stan_model_types.specs.NormalForms as model;
ghost use Rattle.stan_model_types.specs.TypeBytes.{part_order};
ghost use Rattle.stan_type_parts.specs.Parts.{part_of};

use crate::place::add_copy;
use stan_base::OutOfMemory;
use stan_type_order::kind;
use stan_type_parts::Part;
use std::alloc::Global;

/// Whether the kind of a part is between two numbers.
pub fn is_of(from: u8, to: u8, part: &Part) -> bool
    ensures { result ≡ model.is_of from to (part_of part.now) }
{
    let kind = kind(part);
    from <= kind && kind <= to
}

/// Whether there is a part of the kind.
pub fn has_kind(parts: &[Part], kind: u8) -> bool
    ensures { result ≡ list_any (λ p. model.is_of kind kind (part_of p)) parts.now }
{
    parts.iter().any(|part| is_of(kind, kind, part))
}

/// How many parts are of the kinds from one number to another.
pub fn count_kinds(parts: &[Part], from: u8, to: u8) -> usize
    ensures { result ≡ count_by (λ p. model.is_of from to (part_of p)) parts.now }
{
    parts.iter().filter(|part| is_of(from, to, part)).count()
}

/// Puts the parts of the kinds from one number to another in order.
pub fn add_kinds(
    alloc: Global,
    out: &mut Vec<Part>,
    parts: &[Part],
    from: u8,
    to: u8,
) -> Result<(), OutOfMemory>
    ensures { OnOk result (map part_of out.new.items ≡ model.put_all part_order (model.of_kinds from to (map part_of parts.now)) (map part_of out.old.items)) }
{
    for part in parts {
        add_copy(alloc, out, part, is_of(from, to, part))?;
    }
    Ok(())
}
