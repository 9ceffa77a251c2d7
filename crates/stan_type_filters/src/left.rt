//! What is left of a type without what a test asks.

ghost use Rattle.std.specs.Prelude.{◌≡◌, ◌++◌, codes, map, IfOk, OnOk};
ghost use Rattle.std.specs.List.{flat_map};
ghost use Rattle.std.specs.Str.{bytes_eq};
ghost use Rattle.stan_base.specs.Bytes.{fold_case};
ghost use Rattle.stan_model_types.specs.TypeFilters as model;
ghost use Rattle.stan_type_parts.specs.Parts.{part_of};
ghost use Rattle.stan_type_filters.specs.Filters.{filter_of};
ghost use Rattle.stan_type_laws.specs.Settled.{HasNumbers, HaveNumbers};

use crate::falsy::{push_falsy, push_truthy};
use crate::filter::{Filter, narrows};
use crate::kept::{LEVELS, is_kind};
use crate::push::push_copy_where;
use crate::value::push_without_value;
use stan_base::OutOfMemory;
use stan_type_normal::{is_of, normal};
use stan_type_parts::{Part, PhpType};
use std::alloc::Global;

fn is_closure_name(name: &[u8]) -> bool
    ensures { result ≡ bytes_eq (fold_case name.now) (codes "closure") }
{
    name.eq_ignore_ascii_case(b"closure")
}

fn is_closure(part: &Part) -> bool
    ensures { result ≡ model.is_closure (part_of part.now) }
{
    match part {
        Part::Object { name, .. } => is_closure_name(name.bytes()),
        _ => false,
    }
}

// By kind; of what may be called, `callable` and closures.
fn is_taken(filter: &Filter, part: &Part) -> bool
    ensures { result ≡ model.is_taken (filter_of filter.now) (part_of part.now) }
{
    match filter {
        Filter::Object => is_of(1, 5, part),
        Filter::Callable => is_of(8, 8, part) || is_closure(part),
        _ => is_kind(filter, part),
    }
}

// Appends what is left of a part.
fn push_left(
    alloc: Global,
    out: &mut Vec<Part>,
    filter: &Filter,
    part: &Part,
) -> Result<(), OutOfMemory>
    requires { HasNumbers (part_of part.now) }
    ensures { OnOk result (map part_of out.new.items ≡ map part_of out.old.items ++ model.left (filter_of filter.now) (part_of part.now)) }
{
    match filter {
        Filter::Truthy => push_falsy(alloc, out, part),
        Filter::Falsy => push_truthy(alloc, out, part),
        Filter::Literal(value) => push_without_value(alloc, out, value, part),
        _ => push_copy_where(alloc, out, part, !is_taken(filter, part)),
    }
}

fn left_parts(alloc: Global, filter: &Filter, parts: &[Part]) -> Result<Vec<Part>, OutOfMemory>
    requires { HaveNumbers (map part_of parts.now) }
    ensures { IfOk result (λ left. map part_of left.items ≡ flat_map (model.left (filter_of filter.now)) (map part_of parts.now)) }
{
    let mut left = Vec::with_capacity(alloc, parts.len())?;
    for part in parts {
        push_left(alloc, &mut left, filter, part)?;
    }
    Ok(left)
}

/// What is left of a type without what a test asks. Only memory can be wanting.
///
/// - The parts of the kind go: a template under objects, `callable` and closures (by name, in any case) under what may be called. `mixed` stays, and a template under the other tests.
/// - Without one value an equal part goes, or an end of an int part; a test for another part takes nothing away.
/// - Without what counts as false, `string` is `non-empty-string` and an array is non-empty; an int part that holds `0` among others stays, and so does `float`. Without what counts as true, what does as false is left, as `keep` has it.
pub fn without(alloc: Global, t: &PhpType, f: &Filter) -> Result<PhpType, OutOfMemory>
    ensures { IfOk result (λ left. left ≡ model.without (filter_of f.now) t.now) }
{
    if narrows(f) {
        let parts = left_parts(alloc, f, t.parts())?;
        let left = normal(alloc, LEVELS, parts.as_slice(), &[])?;
        Ok(left)
    } else {
        t.copy(alloc)
    }
}
