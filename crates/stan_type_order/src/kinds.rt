//! The numbers of the kinds.

ghost use Rattle.std.specs.Prelude.{◌≡◌};
ghost use Rattle.stan_model_types.specs.TypeBytes.{kind_of};
ghost use Rattle.stan_type_parts.specs.Parts.{part_of};

use stan_type_parts::Part;

/// The number of the kind of a part, from 1 to 18.
pub fn kind(part: &Part) -> u8
    ensures { result ≡ kind_of (part_of part.now) }
{
    match part {
        Part::Object { .. } => 1,
        Part::Static(_) => 2,
        Part::Meeting(_) => 3,
        Part::AnyObject => 4,
        Part::Template { .. } => 5,
        Part::Array { .. } => 6,
        Part::Shape(_) => 7,
        Part::Callable => 8,
        Part::Int { .. } => 9,
        Part::Float => 10,
        Part::Str(_) => 11,
        Part::ClassString(_) => 12,
        Part::False => 13,
        Part::True => 14,
        Part::Null => 15,
        Part::Void => 16,
        Part::ImplicitMixed => 17,
        Part::ExplicitMixed => 18,
    }
}
