//! What a test asks.

ghost use Rattle.std.specs.Prelude.{◌≡◌};
ghost use Rattle.std.specs.Ordering.{int_eq};
ghost use Rattle.stan_model_types.specs.TypeFilters as model;
ghost use Rattle.stan_type_parts.specs.Parts.{part_of};
ghost use Rattle.stan_type_filters.specs.Filters.{filter_of};

use stan_type_normal::is_literal_text;
use stan_type_parts::{Part, StringForm};

/// What a test asks of a value: its kind, whether it counts as true, or which one it is.
#[derive(Drop)]
pub enum Filter {
    Null,
    Bool,
    Int,
    Float,
    Str,
    Array,
    Object,
    Callable,
    Truthy,
    Falsy,
    /// An int of one value, a literal string, `false`, `true` or `null`; another part narrows nothing.
    Literal(Part),
}

fn is_number(least: i64, greatest: i64) -> bool
    ensures { result ≡ int_eq least greatest }
{
    least == greatest
}

/// Whether a part stands for one value.
pub fn is_value(part: &Part) -> bool
    ensures { result ≡ model.is_value (part_of part.now) }
{
    match part {
        Part::Int { least, greatest } => is_number(*least, *greatest),
        Part::Str(StringForm::Literal(text)) => is_literal_text(text.as_slice()),
        Part::False => true,
        Part::True => true,
        Part::Null => true,
        _ => false,
    }
}

/// Whether a test narrows anything.
pub fn narrows(filter: &Filter) -> bool
    ensures { result ≡ model.narrows (filter_of filter.now) }
{
    match filter {
        Filter::Literal(part) => is_value(part),
        _ => true,
    }
}
