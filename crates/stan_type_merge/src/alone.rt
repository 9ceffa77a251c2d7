//! Whether no part touches another.

ghost use Rattle.std.specs.Prelude.{◌≡◌, ◌≤◌, count_by, map};
ghost use Rattle.stan_model_types.specs.NormalForms as model;
ghost use Rattle.stan_type_parts.specs.Parts.{part_of};
ghost use Rattle.stan_type_merge.specs.Merge.{stand_alone};

use stan_type_normal::is_of;
use stan_type_parts::Part;

// How many parts are of the kinds from one number to another.
fn count(parts: &[Part], from: u8, to: u8) -> usize
    ensures { result ≡ count_by (λ p. model.is_of from to (part_of p)) parts.now }
{
    parts.iter().filter(|part| is_of(from, to, part)).count()
}

/// Whether there are no two arrays, int parts or strings, and no `mixed`.
pub fn stand_alone(parts: &[Part]) -> bool
    ensures { result ≡ stand_alone (map part_of parts.now) }
{
    (count(parts, 6, 7) <= 1 && count(parts, 9, 9) <= 1)
        && (count(parts, 11, 11) <= 1 && count(parts, 17, 18) <= 0)
}
