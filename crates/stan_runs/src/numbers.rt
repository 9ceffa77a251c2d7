//! Numbers of the language: the longest that fits.

ghost use Rattle.std.specs.Prelude.{◌≡◌, ◌≤◌, ◌<◌, ◌+◌, ◌*◌, ◌^◌, length, IsTrue, MatchOption, slice_index, slice_range};
ghost use Rattle.stan_model_grammar.specs.Runs.{is_digit, is_hexadecimal_digit, digit_value, with_digit, digits_value};
ghost use Rattle.stan_model_grammar.specs.Numbers.{integer_kind, has_prefix, integer, fraction_end, exponent_end, begins_number, number};
ghost use Rattle.stan_runs.specs.Bases.{is_digit_in, digits_of};

use crate::bases::{Base, is_digit_in, radix};
use crate::bytes::{byte_at, is_digit};
use crate::runs::{Digits, run_end};
use stan_model_grammar::token::TokenKind;

/// The greatest integer.
pub const GREATEST: u64 = 9223372036854775807;

/// What a digit of any base is worth.
pub fn digit_value(byte: u8) -> u64
    ensures value { result ≡ digit_value byte }
    ensures small { result < 256 }
    ensures hexadecimal { IsTrue (is_hexadecimal_digit byte) → result < 16 }
{
    let value = match byte {
        ..=b'9' => byte.saturating_sub(b'0'),
        ..=b'F' => byte.saturating_sub(b'7'),
        _ => byte.saturating_sub(b'W'),
    };
    u64::from(value)
}

// One digit more. None past the greatest integer.
fn with_digit(base: u64, value: u64, byte: u8) -> Option<u64>
    requires { value ≤ GREATEST }
    ensures { MatchOption result (GREATEST < with_digit base value byte) (λ v. (v ≡ with_digit base value byte) × (v ≤ GREATEST)) }
{
    if byte == b'_' {
        return Some(value);
    }
    let next = value.checked_mul(base)?.checked_add(digit_value(byte))?;
    if next > GREATEST { None } else { Some(next) }
}

/// The value of digits in a base, in which `_` means nothing. None past the greatest integer.
#[tactic(auto, using(crate::proofs::NumberLemmas::value_steps), unfolding(stan_model_grammar::specs::Runs::digits_value))]
pub fn value(base: u64, digits: &[u8]) -> Option<u64>
    requires { 1 ≤ base }
    ensures { MatchOption result (GREATEST < digits_value base digits.now) (λ v. (v ≡ digits_value base digits.now) × (v ≤ GREATEST)) }
{
    let mut value = 0;
    for digit in digits {
        match with_digit(base, value, *digit) {
            Some(next) => value = next,
            None => return None,
        }
    }
    Some(value)
}

// The kind of an integer with these digits.
fn integer_kind(base: u64, digits: &[u8]) -> TokenKind
    requires { 1 ≤ base }
    ensures { result ≡ integer_kind base digits.now }
{
    match value(base, digits) {
        Some(_) => TokenKind::Integer,
        None => TokenKind::Float,
    }
}

/// Whether `0`, one of two letters and a digit of a base stand there.
pub fn has_prefix(source: &[u8], small: u8, capital: u8, base: Base, at: usize) -> bool
    requires { at < 2 ^ 63 }
    ensures value { result ≡ has_prefix source.now at small capital (is_digit_in base) }
    ensures within { IsTrue result → at + 2 ≤ length source.now }
{
    let letter = byte_at(source, at + 1);
    let digit = byte_at(source, at + 2);
    byte_at(source, at) == b'0'
        && (letter == small || letter == capital)
        && is_digit_in(base, digit)
}

// The integer whose digits begin at a place, by its kind and its end.
fn digits(source: &[u8], base: Base, from: usize) -> (TokenKind, usize)
    requires { from ≤ length source.now }
    ensures value { result ≡ digits_of source.now base from }
    ensures rises { from ≤ result.1 }
    ensures within { result.1 ≤ length source.now }
{
    let to = run_end(source, Digits(base), from);
    (integer_kind(radix(base), &source[from..to]), to)
}

// The longest integer that begins with a digit, by its kind and its end.
#[tactic(auto, using(crate::proofs::RunLemmas::run_end_begins), unfolding(stan_model_grammar::specs::Numbers::integer))]
fn integer(source: &[u8], at: usize) -> (TokenKind, usize)
    requires within { at < length source.now }
    requires digit { IsTrue (is_digit (slice_index source.now at)) }
    ensures value { result ≡ integer source.now at }
    ensures rises { at < result.1 }
    ensures within { result.1 ≤ length source.now }
{
    if has_prefix(source, b'x', b'X', Base::Hexadecimal, at) {
        digits(source, Base::Hexadecimal, at + 2)
    } else if has_prefix(source, b'b', b'B', Base::Binary, at) {
        digits(source, Base::Binary, at + 2)
    } else if source[at] == b'0' {
        digits(source, Base::Octal, at)
    } else {
        digits(source, Base::Decimal, at)
    }
}

// The end of the point and the digits behind it that stand at a place, or the place.
#[tactic(auto, unfolding(stan_model_grammar::specs::Numbers::fraction_end))]
fn fraction_end(source: &[u8], at: usize) -> usize
    requires { at ≤ length source.now }
    ensures value { result ≡ fraction_end source.now at }
    ensures rises { at ≤ result }
    ensures within { result ≤ length source.now }
{
    if byte_at(source, at) != b'.' {
        at
    } else if is_digit(byte_at(source, at + 1)) {
        run_end(source, Digits(Base::Decimal), at + 1)
    } else {
        at + 1
    }
}

// The end of the exponent that stands at a place, or the place.
#[tactic(auto, unfolding(stan_model_grammar::specs::Numbers::exponent_end))]
fn exponent_end(source: &[u8], at: usize) -> usize
    requires { at ≤ length source.now }
    ensures value { result ≡ exponent_end source.now at }
    ensures rises { at ≤ result }
    ensures within { result ≤ length source.now }
{
    let letter = byte_at(source, at);
    if letter != b'e' && letter != b'E' {
        return at;
    }
    let sign = byte_at(source, at + 1);
    let from = if sign == b'+' || sign == b'-' {
        at + 2
    } else {
        at + 1
    };
    let digit = byte_at(source, from);
    if is_digit(digit) {
        run_end(source, Digits(Base::Decimal), from)
    } else {
        at
    }
}

/// Whether a number begins at a place.
pub fn begins_number(source: &[u8], at: usize) -> bool
    requires { at < 2 ^ 63 }
    ensures { result ≡ begins_number source.now at }
{
    let byte = byte_at(source, at);
    is_digit(byte) || (byte == b'.' && is_digit(byte_at(source, at + 1)))
}

/// The longest number that begins at a place, by its kind and its end.
#[tactic(auto, unfolding(stan_model_grammar::specs::Numbers::number))]
pub fn number(source: &[u8], at: usize) -> (TokenKind, usize)
    requires within { at < length source.now }
    requires begins { IsTrue (begins_number source.now at) }
    ensures value { result ≡ number source.now at }
    ensures rises { at < result.1 }
    ensures within { result.1 ≤ length source.now }
{
    if source[at] == b'.' {
        let fraction = run_end(source, Digits(Base::Decimal), at + 1);
        return (TokenKind::Float, exponent_end(source, fraction));
    }
    let whole = run_end(source, Digits(Base::Decimal), at);
    let to = exponent_end(source, fraction_end(source, whole));
    if whole < to {
        (TokenKind::Float, to)
    } else {
        integer(source, at)
    }
}
