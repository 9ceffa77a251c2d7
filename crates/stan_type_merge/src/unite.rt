//! The union of two types.

ghost use Rattle.std.specs.Prelude.{◌≡◌, IfOk, MatchOption};
ghost use Rattle.stan_model_types.specs.NormalForms as model;

use crate::alone::stand_alone;
use crate::merge::push_merged;
use stan_base::OutOfMemory;
use stan_type_limits::is_within;
use stan_type_parts::PhpType;
use std::alloc::Global;

/// The union of two types in one walk over both, where no part of it touches another and it keeps the limits. None says nothing. Only memory can be wanting.
pub fn merged(alloc: Global, a: &PhpType, b: &PhpType) -> Result<Option<PhpType>, OutOfMemory>
    ensures { IfOk result (λ found. MatchOption found (Unit {0}) (λ t. t ≡ model.union a.now b.now)) }
{
    let parts = a.parts();
    let others = b.parts();
    let mut made = Vec::with_capacity(alloc, parts.len().saturating_add(others.len()))?;
    push_merged(alloc, &mut made, parts, others)?;
    if stand_alone(made.as_slice()) && is_within(made.as_slice()) {
        Ok(Some(PhpType::from_parts(made)))
    } else {
        Ok(None)
    }
}
