//! Numbers of 64 bits.

ghost use Rattle.std.specs.Prelude.{◌≡◌, ◌≤◌, ◌<◌, ◌||◌, not, ℕ, Some, None, MatchOption, length, option_map};
ghost use Rattle.std.specs.List.{list_all};
ghost use Rattle.stan_model_neon.specs.Characters.{is_digit};
ghost use Rattle.stan_neon_scalars.specs.Numbers.{with_digit, digits_value, magnitude, positive, negative, number};

use crate::bytes::{byte_at, is_digit};

/// The greatest number without its sign: that of the least one.
pub const GREATEST: u64 = 9223372036854775808;

// One digit more. None past the greatest number.
fn with_digit(value: u64, byte: u8) -> Option<u64>
    requires { value ≤ GREATEST }
    ensures { MatchOption result (GREATEST < with_digit value byte) (λ v. (v ≡ with_digit value byte) × (v ≤ GREATEST)) }
{
    let next = value
        .checked_mul(10)?
        .checked_add(u64::from(byte.saturating_sub(b'0')))?;
    if next > GREATEST { None } else { Some(next) }
}

// The value of digits. None past the greatest number.
#[tactic(auto, using(crate::proofs::NumberLemmas::value_steps), unfolding(crate::specs::Numbers::digits_value))]
fn value(digits: &[u8]) -> Option<u64>
    ensures { MatchOption result (GREATEST < digits_value digits.now) (λ v. (v ≡ digits_value digits.now) × (v ≤ GREATEST)) }
{
    let mut value = 0;
    for digit in digits {
        match with_digit(value, *digit) {
            Some(next) => value = next,
            None => return None,
        }
    }
    Some(value)
}

// Whether all are digits.
fn are_digits(bytes: &[u8]) -> bool
    ensures { result ≡ list_all is_digit bytes.now }
{
    bytes.iter().all(|b| is_digit(*b))
}

// The value of digits, where it is at most the greatest number.
#[tactic(auto, unfolding(crate::specs::Numbers::magnitude))]
fn magnitude(digits: &[u8]) -> Option<u64>
    ensures value { result ≡ magnitude digits.now }
    ensures small { MatchOption result (0 ≤ 0) (λ v. v ≤ GREATEST) }
{
    if digits.is_empty() || !are_digits(digits) {
        return None;
    }
    value(digits)
}

fn positive(value: u64) -> Option<i64>
    ensures { result ≡ positive value }
{
    if value <= 9223372036854775807 {
        Some(value as i64)
    } else {
        None
    }
}

fn negative(value: u64) -> i64
    requires { value ≤ GREATEST }
    ensures { result ≡ negative value }
{
    if value <= 9223372036854775807 {
        -(value as i64)
    } else {
        i64::MIN
    }
}

/// The number of 64 bits that a plain text is: digits, and a `-` before them at will.
#[tactic(auto, unfolding(crate::specs::Numbers::number))]
pub fn number(text: &[u8]) -> Option<i64>
    ensures { result ≡ number text.now }
{
    if byte_at(text, 0) == b'-' {
        match magnitude(&text[1..]) {
            Some(value) => Some(negative(value)),
            None => None,
        }
    } else {
        match magnitude(text) {
            Some(value) => positive(value),
            None => None,
        }
    }
}
