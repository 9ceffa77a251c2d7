//! The type of a part, and the union of types.

ghost use Rattle.std.specs.Prelude.{◌≡◌, IfOk};
ghost use Rattle.stan_model_types.specs.NormalForms as model;
ghost use Rattle.stan_type_parts.specs.Parts.{part_of};

use stan_base::OutOfMemory;
use stan_type_merge::merged;
use stan_type_normal::normal;
use stan_type_parts::{Part, PhpType};
use std::alloc::Global;

// A type is at most 64 levels deep, and a part that holds one 65.
const LEVELS: u8 = 66;

/// The normal form of a part alone. Only memory can be wanting.
///
/// - A range whose least is above its greatest is no part.
/// - A literal of more than 64 bytes, or with a byte outside of 20 to 7E (hexadecimal), is `non-empty-string`.
/// - A meeting has its names by their bytes, each once; one name is that object, and none is `object`.
/// - A shape with a key that is no such text is an array of its united keys and values, without flags.
/// - A part with more than 4,096 parts and fields, or more than 64 levels, is explicit `mixed`.
pub fn one(alloc: Global, part: Part) -> Result<PhpType, OutOfMemory>
    ensures { IfOk result (λ t. t ≡ model.one (part_of part)) }
{
    let mut parts = Vec::with_capacity(alloc, 1)?;
    parts.push(part)?;
    let t = normal(alloc, LEVELS, parts.as_slice(), &[])?;
    Ok(t)
}

// The normal form of the parts of both, from all of them anew.
fn united(alloc: Global, a: &PhpType, b: &PhpType) -> Result<PhpType, OutOfMemory>
    ensures { IfOk result (λ t. t ≡ model.union a.now b.now) }
{
    let t = normal(alloc, LEVELS, a.parts(), b.parts())?;
    Ok(t)
}

/// The normal form of the parts of both. Only memory can be wanting.
///
/// - `mixed` stands alone, and the explicit one wins.
/// - Ranges that touch or overlap are one; more than 32 are one from the least to the greatest.
/// - A literal goes where `string` is there, and where `non-empty-string` is there and it isn't `''`; more than 32 are `string`.
/// - Two arrays or shapes that aren't equal are one array of their united keys and values, with the flags that both have.
/// - A union with more than 4,096 parts and fields, or more than 64 levels, is explicit `mixed`.
pub fn union(alloc: Global, a: &PhpType, b: &PhpType) -> Result<PhpType, OutOfMemory>
    ensures { IfOk result (λ t. t ≡ model.union a.now b.now) }
{
    match merged(alloc, a, b)? {
        Some(t) => Ok(t),
        None => united(alloc, a, b),
    }
}
