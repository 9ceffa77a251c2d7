//! The fields of a shape.

ghost use Rattle.std.specs.Prelude.{◌≡◌, ◌+◌, ◌<◌, ◌^◌, length, map, pos};
ghost use Rattle.std.specs.Ordering.{int_eq};
ghost use Rattle.stan_model_types.specs.NormalForms as model;
ghost use Rattle.stan_model_types.specs.Types.{of_fields};
ghost use Rattle.stan_type_parts.specs.Parts.{field_of, key_of};

use crate::meetings::is_literal_text;
use stan_type_parts::{Field, Key};

fn is_key(key: &Key) -> bool
    ensures { result ≡ model.is_key (key_of key.now) }
{
    match key {
        Key::Int(_) => true,
        Key::Text(text) => is_literal_text(text.as_slice()),
    }
}

/// Whether each key is one that a shape may have.
pub fn are_keys(fields: &[Field]) -> bool
    ensures { result ≡ model.are_keys (of_fields (map field_of fields.now)) }
{
    match fields.split_first() {
        None => true,
        Some((first, others)) => is_key(&first.key) && are_keys(others),
    }
}

/// Whether a field may not be missing.
pub fn has_required(fields: &[Field]) -> bool
    ensures { result ≡ model.has_required (of_fields (map field_of fields.now)) }
{
    match fields.split_first() {
        None => false,
        Some((first, others)) => !first.optional || has_required(others),
    }
}

fn is_number(key: i64, number: u64) -> bool
    ensures { result ≡ int_eq key (pos number) }
{
    0 <= key && key.cast_unsigned() == number
}

/// Whether the keys are the numbers from one on.
pub fn counts_from(number: u64, fields: &[Field]) -> bool
    requires { number + length fields.now < 2 ^ 64 }
    ensures { result ≡ model.counts_from number (of_fields (map field_of fields.now)) }
{
    match fields.split_first() {
        None => true,
        Some((first, others)) => match &first.key {
            Key::Int(key) => is_number(*key, number) && counts_from(number + 1, others),
            Key::Text(_) => false,
        },
    }
}
