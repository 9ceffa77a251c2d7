//! The parts and fields of a type, and how deep they stand.

ghost use Rattle.std.specs.Prelude.{◌≡◌, ◌+◌, ◌-◌, ◌^◌, min, map};
ghost use Rattle.stan_model_types.specs.Types as model;
ghost use Rattle.stan_model_types.specs.TypeLimits as model_limits;
ghost use Rattle.stan_type_parts.specs.Parts.{class_string_of, field_of, part_of};

use stan_type_parts::{Field, Part, PhpType};

/// Whether these parts keep the limits of a type: at most 4,096 parts and fields at all depths together, and 64 levels.
pub fn is_within(parts: &[Part]) -> bool
    ensures { result ≡ model_limits.is_within (model.of_parts (map part_of parts.now)) }
{
    count_parts(parts) <= 4096 && depth_of_parts(parts) <= 64
}

// Counts end at `u32::MAX`.
#[cycle(counts)]
fn count_parts(parts: &[Part]) -> u32
    ensures { result ≡ min (model_limits.type_count (model.of_parts (map part_of parts.now))) (2 ^ 32 - 1) }
{
    let mut total: u32 = 0;
    for part in parts {
        total = total.saturating_add(1).saturating_add(count_part(part));
    }
    total
}

#[cycle(counts)]
fn count_type(t: &PhpType) -> u32
    ensures { result ≡ min (model_limits.type_count t.now) (2 ^ 32 - 1) }
{
    count_parts(t.parts())
}

#[cycle(counts)]
fn count_types(types: &[PhpType]) -> u32
    ensures { result ≡ min (model_limits.types_count (model.of_types types.now)) (2 ^ 32 - 1) }
{
    let mut total: u32 = 0;
    for t in types {
        total = total.saturating_add(count_type(t));
    }
    total
}

#[cycle(counts)]
fn count_fields(fields: &[Field]) -> u32
    ensures { result ≡ min (model_limits.fields_count (model.of_fields (map field_of fields.now))) (2 ^ 32 - 1) }
{
    let mut total: u32 = 0;
    for field in fields {
        total = total
            .saturating_add(1)
            .saturating_add(count_type(&field.value));
    }
    total
}

#[cycle(counts)]
fn count_class(class: &Option<PhpType>) -> u32
    ensures { result ≡ min (model_limits.part_count (class_string_of class.now)) (2 ^ 32 - 1) }
{
    match class {
        None => 0,
        Some(t) => count_type(t),
    }
}

#[cycle(counts)]
fn count_part(part: &Part) -> u32
    ensures { result ≡ min (model_limits.part_count (part_of part.now)) (2 ^ 32 - 1) }
{
    match part {
        Part::Object { arguments, .. } => count_types(arguments.as_slice()),
        Part::Static(_) => 0,
        Part::Meeting(_) => 0,
        Part::AnyObject => 0,
        Part::Template { bound, .. } => count_type(bound),
        Part::Array { key, value, .. } => count_type(key).saturating_add(count_type(value)),
        Part::Shape(fields) => count_fields(fields.as_slice()),
        Part::Callable => 0,
        Part::Int { .. } => 0,
        Part::Float => 0,
        Part::Str(_) => 0,
        Part::ClassString(class) => count_class(class),
        Part::False => 0,
        Part::True => 0,
        Part::Null => 0,
        Part::Void => 0,
        Part::ImplicitMixed => 0,
        Part::ExplicitMixed => 0,
    }
}

#[cycle(depths)]
fn depth_of_parts(parts: &[Part]) -> u32
    ensures { result ≡ min (model_limits.type_depth (model.of_parts (map part_of parts.now))) (2 ^ 32 - 1) }
{
    let mut most: u32 = 0;
    for part in parts {
        most = most.max(depth_of_part(part));
    }
    most
}

// Of a type inside a part: one without parts adds nothing.
#[cycle(depths)]
fn depth_inside(t: &PhpType) -> u32
    ensures { result ≡ min (model_limits.inner_depth t.now) (2 ^ 32 - 1) }
{
    let parts = t.parts();
    if parts.is_empty() {
        0
    } else {
        depth_of_parts(parts).saturating_add(1)
    }
}

#[cycle(depths)]
fn depth_of_types(types: &[PhpType]) -> u32
    ensures { result ≡ min (model_limits.types_depth (model.of_types types.now)) (2 ^ 32 - 1) }
{
    let mut most: u32 = 0;
    for t in types {
        most = most.max(depth_inside(t));
    }
    most
}

#[cycle(depths)]
fn depth_of_fields(fields: &[Field]) -> u32
    ensures { result ≡ min (model_limits.fields_depth (model.of_fields (map field_of fields.now))) (2 ^ 32 - 1) }
{
    let mut most: u32 = 0;
    for field in fields {
        most = most.max(depth_inside(&field.value));
    }
    most
}

#[cycle(depths)]
fn depth_of_class(class: &Option<PhpType>) -> u32
    ensures { result ≡ min (model_limits.part_depth (class_string_of class.now)) (2 ^ 32 - 1) }
{
    match class {
        None => 0,
        Some(t) => depth_inside(t),
    }
}

#[cycle(depths)]
fn depth_of_part(part: &Part) -> u32
    ensures { result ≡ min (model_limits.part_depth (part_of part.now)) (2 ^ 32 - 1) }
{
    match part {
        Part::Object { arguments, .. } => depth_of_types(arguments.as_slice()),
        Part::Static(_) => 0,
        Part::Meeting(_) => 0,
        Part::AnyObject => 0,
        Part::Template { bound, .. } => depth_inside(bound),
        Part::Array { key, value, .. } => depth_inside(key).max(depth_inside(value)),
        Part::Shape(fields) => depth_of_fields(fields.as_slice()),
        Part::Callable => 0,
        Part::Int { .. } => 0,
        Part::Float => 0,
        Part::Str(_) => 0,
        Part::ClassString(class) => depth_of_class(class),
        Part::False => 0,
        Part::True => 0,
        Part::Null => 0,
        Part::Void => 0,
        Part::ImplicitMixed => 0,
        Part::ExplicitMixed => 0,
    }
}
