//! Types compared by value.

ghost use Rattle.std.specs.Prelude.{◌≡◌, ◌↔◌, IsTrue};
ghost use Rattle.std.specs.Cmp.Lexicographic.{slice_cmp};
ghost use Rattle.std.specs.Ordering.{nat_cmp};
ghost use Rattle.stan_model_types.specs.TypeBytes.{type_bytes};

use stan_type_order::compare_types;
use stan_type_parts::PhpType;
use std::cmp::Ordering;

/// The order of two types by their bytes.
pub fn order(a: &PhpType, b: &PhpType) -> Ordering
    ensures order { result ≡ slice_cmp nat_cmp (type_bytes a.now) (type_bytes b.now) }
    ensures equal { result ≡ Ordering.Equal → a.now ≡ b.now }
{
    compare_types(a, b)
}

/// Whether two types are equal.
pub fn is_equal(a: &PhpType, b: &PhpType) -> bool
    ensures { IsTrue result ↔ (a.now ≡ b.now) }
{
    match order(a, b) {
        Ordering::Less => false,
        Ordering::Equal => true,
        Ordering::Greater => false,
    }
}
