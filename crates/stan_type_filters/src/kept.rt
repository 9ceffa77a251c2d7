//! What a test keeps of a type.

ghost use Rattle.std.specs.Prelude.{◌≡◌, ◌∷◌, ◌++◌, [], if◌then◌else◌, map, IfOk, OnOk};
ghost use Rattle.std.specs.List.{flat_map};
ghost use Rattle.stan_model_types.specs.TypeFilters as model;
ghost use Rattle.stan_model_types.specs.TypeLimits.{implicit_mixed};
ghost use Rattle.stan_model_types.specs.Types.{of_parts};
ghost use Rattle.stan_type_parts.specs.Parts.{part_of};
ghost use Rattle.stan_type_filters.specs.Filters.{filter_of};

use crate::falsy::{push_falsy, push_truthy};
use crate::filter::{Filter, narrows};
use crate::push::{push, push_copy};
use crate::value::holds_value;
use stan_base::OutOfMemory;
use stan_type_normal::{is_of, normal};
use stan_type_parts::{Part, PhpType, StringForm};
use std::alloc::Global;

// A type is at most 64 levels deep, and a part that holds one 65.
pub const LEVELS: u8 = 66;

fn is_literal_string(part: &Part) -> bool
    ensures { result ≡ model.is_literal_string (part_of part.now) }
{
    match part {
        Part::Str(StringForm::Literal(_)) => true,
        _ => false,
    }
}

// Whether a callable may be of the kind.
fn takes_callable(filter: &Filter) -> bool
    ensures { result ≡ model.takes_callable (filter_of filter.now) }
{
    match filter {
        Filter::Str => true,
        Filter::Array => true,
        Filter::Object => true,
        Filter::Callable => true,
        Filter::Literal(value) => is_literal_string(value),
        _ => false,
    }
}

/// Whether a part other than `mixed`, a template and `callable` is of the kind. A test for what may be called takes objects, arrays and strings.
pub fn is_kind(filter: &Filter, part: &Part) -> bool
    ensures { result ≡ model.is_kind (filter_of filter.now) (part_of part.now) }
{
    match filter {
        Filter::Null => is_of(15, 15, part),
        Filter::Bool => is_of(13, 14, part),
        Filter::Int => is_of(9, 9, part),
        Filter::Float => is_of(10, 10, part),
        Filter::Str => is_of(11, 12, part),
        Filter::Array => is_of(6, 7, part),
        Filter::Object => is_of(1, 4, part),
        Filter::Callable => is_of(1, 4, part) || (is_of(6, 7, part) || is_of(11, 12, part)),
        Filter::Truthy => false,
        Filter::Falsy => false,
        Filter::Literal(value) => holds_value(value, part),
    }
}

// `int|string`
fn array_key(alloc: Global) -> Result<PhpType, OutOfMemory>
    ensures { IfOk result (λ t. t ≡ model.array_key) }
{
    let mut parts = Vec::with_capacity(alloc, 2)?;
    push(
        &mut parts,
        Part::Int {
            least: i64::MIN,
            greatest: i64::MAX,
        },
    )?;
    push(&mut parts, Part::Str(StringForm::Plain))?;
    Ok(PhpType::from_parts(parts))
}

fn implicit_mixed(alloc: Global) -> Result<PhpType, OutOfMemory>
    ensures { IfOk result (λ t. t ≡ implicit_mixed) }
{
    let mut parts = Vec::with_capacity(alloc, 1)?;
    push(&mut parts, Part::ImplicitMixed)?;
    Ok(PhpType::from_parts(parts))
}

fn push_array(alloc: Global, out: &mut Vec<Part>) -> Result<(), OutOfMemory>
    ensures { OnOk result (map part_of out.new.items ≡ map part_of out.old.items ++ model.widest model.Arrays) }
{
    let key = array_key(alloc)?;
    let value = implicit_mixed(alloc)?;
    push(
        out,
        Part::Array {
            key,
            value,
            is_list: false,
            is_non_empty: false,
        },
    )
}

fn push_bool(out: &mut Vec<Part>) -> Result<(), OutOfMemory>
    ensures { OnOk result (map part_of out.new.items ≡ map part_of out.old.items ++ model.widest model.Bools) }
{
    push(out, Part::False)?;
    push(out, Part::True)?;
    Ok(())
}

// Appends the widest type that a test lets through.
fn push_widest(alloc: Global, out: &mut Vec<Part>, filter: &Filter) -> Result<(), OutOfMemory>
    ensures { OnOk result (map part_of out.new.items ≡ map part_of out.old.items ++ model.widest (filter_of filter.now)) }
{
    match filter {
        Filter::Null => push(out, Part::Null),
        Filter::Bool => push_bool(out),
        Filter::Int => push(
            out,
            Part::Int {
                least: i64::MIN,
                greatest: i64::MAX,
            },
        ),
        Filter::Float => push(out, Part::Float),
        Filter::Str => push(out, Part::Str(StringForm::Plain)),
        Filter::Array => push_array(alloc, out),
        Filter::Object => push(out, Part::AnyObject),
        Filter::Callable => push(out, Part::Callable),
        Filter::Truthy => Ok(()),
        Filter::Falsy => Ok(()),
        Filter::Literal(literal) => push_copy(alloc, out, literal),
    }
}

// Appends a part cut to the value of the test.
fn push_cut(
    alloc: Global,
    out: &mut Vec<Part>,
    filter: &Filter,
    part: &Part,
) -> Result<(), OutOfMemory>
    ensures { OnOk result (map part_of out.new.items ≡ map part_of out.old.items ++ model.cut (filter_of filter.now) (part_of part.now)) }
{
    match filter {
        Filter::Literal(value) => push_copy(alloc, out, value),
        _ => push_copy(alloc, out, part),
    }
}

// Of a part that is no template.
fn push_plain(
    alloc: Global,
    out: &mut Vec<Part>,
    filter: &Filter,
    part: &Part,
) -> Result<(), OutOfMemory>
    ensures { OnOk result (map part_of out.new.items ≡ map part_of out.old.items ++ model.plain_kept (filter_of filter.now) (part_of part.now)) }
{
    match part {
        Part::ImplicitMixed => push_widest(alloc, out, filter),
        Part::ExplicitMixed => push_widest(alloc, out, filter),
        Part::Callable => push_callable(alloc, out, filter),
        _ => {
            if is_kind(filter, part) {
                push_cut(alloc, out, filter, part)
            } else {
                Ok(())
            }
        }
    }
}

fn push_callable(alloc: Global, out: &mut Vec<Part>, filter: &Filter) -> Result<(), OutOfMemory>
    ensures { OnOk result (map part_of out.new.items ≡ map part_of out.old.items ++ (if model.takes_callable (filter_of filter.now) then model.widest (filter_of filter.now) else [])) }
{
    if takes_callable(filter) {
        push_widest(alloc, out, filter)
    } else {
        Ok(())
    }
}

fn keeps_plain(filter: &Filter, part: &Part) -> bool
    ensures { result ≡ model.keeps_plain (filter_of filter.now) (part_of part.now) }
{
    match part {
        Part::ImplicitMixed => true,
        Part::ExplicitMixed => true,
        Part::Callable => takes_callable(filter),
        _ => is_kind(filter, part),
    }
}

// Whether something of a part is kept; of a template by its bound.
#[cycle(keeps)]
fn keeps(filter: &Filter, part: &Part) -> bool
    ensures { result ≡ model.keeps (filter_of filter.now) (part_of part.now) }
{
    match part {
        Part::Template { bound, .. } => keeps_some(filter, bound.parts()),
        _ => keeps_plain(filter, part),
    }
}

#[cycle(keeps)]
fn keeps_some(filter: &Filter, parts: &[Part]) -> bool
    ensures { result ≡ model.keeps_some (filter_of filter.now) (of_parts (map part_of parts.now)) }
{
    match parts.split_first() {
        None => false,
        Some((first, others)) => keeps(filter, first) || keeps_some(filter, others),
    }
}

// A template is an object part, and under the other tests what `mixed` is, where its bound keeps something.
fn push_template(
    alloc: Global,
    out: &mut Vec<Part>,
    filter: &Filter,
    part: &Part,
    bound: &PhpType,
) -> Result<(), OutOfMemory>
    ensures { OnOk result (map part_of out.new.items ≡ map part_of out.old.items ++ model.template_kept (filter_of filter.now) (part_of part.now) bound.now) }
{
    match filter {
        Filter::Object => push_copy(alloc, out, part),
        _ => {
            if keeps_some(filter, bound.parts()) {
                push_widest(alloc, out, filter)
            } else {
                Ok(())
            }
        }
    }
}

fn push_kind(
    alloc: Global,
    out: &mut Vec<Part>,
    filter: &Filter,
    part: &Part,
) -> Result<(), OutOfMemory>
    ensures { OnOk result (map part_of out.new.items ≡ map part_of out.old.items ++ model.kind_kept (filter_of filter.now) (part_of part.now)) }
{
    match part {
        Part::Template { bound, .. } => push_template(alloc, out, filter, part, bound),
        _ => push_plain(alloc, out, filter, part),
    }
}

// Appends what a test keeps of a part.
fn push_kept(
    alloc: Global,
    out: &mut Vec<Part>,
    filter: &Filter,
    part: &Part,
) -> Result<(), OutOfMemory>
    ensures { OnOk result (map part_of out.new.items ≡ map part_of out.old.items ++ model.kept (filter_of filter.now) (part_of part.now)) }
{
    match filter {
        Filter::Truthy => push_truthy(alloc, out, part),
        Filter::Falsy => push_falsy(alloc, out, part),
        _ => push_kind(alloc, out, filter, part),
    }
}

fn kept_parts(alloc: Global, filter: &Filter, parts: &[Part]) -> Result<Vec<Part>, OutOfMemory>
    ensures { IfOk result (λ kept. map part_of kept.items ≡ flat_map (model.kept (filter_of filter.now)) (map part_of parts.now)) }
{
    let mut kept = Vec::with_capacity(alloc, parts.len())?;
    for part in parts {
        push_kept(alloc, &mut kept, filter, part)?;
    }
    Ok(kept)
}

/// What a test keeps of a type. Only memory can be wanting.
///
/// - The parts of its kind stay; `void` is no `null`. A test for what may be called keeps objects, arrays and strings too.
/// - Of `mixed` of both kinds the widest type of that kind stays; so of a template whose bound keeps something, and of `callable` under strings, arrays, objects and literal strings. A test for objects keeps a template as it is.
/// - A test for one value cuts a part that holds it to the value; a test for another part narrows nothing.
/// - A test for what counts as false keeps `array{}`, `0`, `''`, `'0'`, `false` and `null` where a part may be it, a template by its bound, and `float`; one for what counts as true leaves what `without` leaves of that. Both leave `mixed`.
pub fn keep(alloc: Global, t: &PhpType, f: &Filter) -> Result<PhpType, OutOfMemory>
    ensures { IfOk result (λ kept. kept ≡ model.keep (filter_of f.now) t.now) }
{
    if narrows(f) {
        let parts = kept_parts(alloc, f, t.parts())?;
        let kept = normal(alloc, LEVELS, parts.as_slice(), &[])?;
        Ok(kept)
    } else {
        t.copy(alloc)
    }
}
