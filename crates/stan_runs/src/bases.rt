//! The bases of integers.

ghost use Rattle.std.specs.Prelude.{◌≡◌, ◌≤◌};
ghost use Rattle.stan_runs.specs.Bases.{is_digit_in, radix};

use crate::bytes::{is_binary_digit, is_digit, is_hexadecimal_digit, is_octal_digit};

/// The base of an integer.
#[derive(Clone, Copy)]
pub enum Base {
    Binary,
    Octal,
    Decimal,
    Hexadecimal,
}

/// Whether it is a digit of the base.
pub fn is_digit_in(base: Base, byte: u8) -> bool
    ensures { result ≡ is_digit_in base byte }
{
    match base {
        Base::Binary => is_binary_digit(byte),
        Base::Octal => is_octal_digit(byte),
        Base::Decimal => is_digit(byte),
        Base::Hexadecimal => is_hexadecimal_digit(byte),
    }
}

/// How many digits a base has.
pub fn radix(base: Base) -> u64
    ensures value { result ≡ radix base }
    ensures some { 1 ≤ result }
{
    match base {
        Base::Binary => 2,
        Base::Octal => 8,
        Base::Decimal => 10,
        Base::Hexadecimal => 16,
    }
}
