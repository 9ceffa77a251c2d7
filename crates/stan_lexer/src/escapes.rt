//! Escapes of texts.

ghost use Rattle.std.specs.Prelude.{◌≡◌, ◌+◌, ◌-◌, ◌≤◌, ◌<◌, ◌++◌, ◌∷◌, [], Bool, false, List, ℕ, OnOk, IfOk, IsTrue, length, slice_index};
ghost use Rattle.stan_model_grammar.specs.Runs.{is_octal_digit, is_hexadecimal_digit, digits_value};
ghost use Rattle.stan_model_grammar.specs.Texts.{is_code_point};
ghost use Rattle.stan_model_grammar.specs.Values.{utf8, letter_escape, octal_escape, hexadecimal_escape, code_point_escape, begins_hexadecimal, begins_code_point, escape, resolved, single_resolved, unindented};

use stan_base::OutOfMemory;
use stan_runs::bytes::{byte_at, is_hexadecimal_digit, is_octal_digit, is_space};
use stan_runs::fixed::is_code_point;
use stan_runs::numbers::{digit_value, value};
use stan_runs::runs::{HexadecimalDigits, run_end};
use std::alloc::Global;

// Adds the bytes of a code point in UTF-8.
fn push_utf8(out: &mut Vec<u8>, point: u64) -> Result<(), OutOfMemory>
    requires { point ≤ 1114111 }
    ensures { OnOk result (out.new.items ≡ out.old.items ++ utf8 point) }
{
    if point < 0x80 {
        out.push(point as u8)?;
    } else if point < 0x800 {
        out.extend_from_slice(&[(192 + point / 64) as u8, (128 + point % 64) as u8])?;
    } else if point < 0x10000 {
        out.extend_from_slice(&[
            (224 + point / 4096) as u8,
            (128 + point / 64 % 64) as u8,
            (128 + point % 64) as u8,
        ])?;
    } else {
        out.extend_from_slice(&[
            (240 + point / 262144) as u8,
            (128 + point / 4096 % 64) as u8,
            (128 + point / 64 % 64) as u8,
            (128 + point % 64) as u8,
        ])?;
    }
    Ok(())
}

// What a byte behind a `\` means alone.
fn letter_escape(quoted: bool, byte: u8) -> Option<u8>
    ensures { result ≡ letter_escape quoted byte }
{
    match byte {
        b'n' => Some(b'\n'),
        b't' => Some(b'\t'),
        b'r' => Some(b'\r'),
        b'v' => Some(11),
        b'e' => Some(27),
        b'f' => Some(12),
        b'\\' | b'$' => Some(byte),
        b'"' if quoted => Some(byte),
        _ => None,
    }
}

// One to three octal digits: the byte that they mean, and how many they are.
fn octal_escape(rest: &[u8]) -> (u8, usize)
    requires { IsTrue (is_octal_digit (slice_index rest.now 0)) }
    ensures value { (result.0 ∷ [], result.1) ≡ octal_escape rest.now }
    ensures within { result.1 ≤ length rest.now }
{
    let first = byte_at(rest, 0);
    let second = byte_at(rest, 1);
    let third = byte_at(rest, 2);
    if !is_octal_digit(second) {
        (first - b'0', 1)
    } else if !is_octal_digit(third) {
        ((first - b'0') * 8 + (second - b'0'), 2)
    } else {
        let value = u32::from(first - b'0') * 64
            + u32::from(second - b'0') * 8
            + u32::from(third - b'0');
        ((value % 256) as u8, 3)
    }
}

// `x` and one or two hexadecimal digits: the byte that they mean, and how many they are.
fn hexadecimal_escape(rest: &[u8]) -> (u8, usize)
    requires { IsTrue (is_hexadecimal_digit (slice_index rest.now 1)) }
    ensures value { (result.0 ∷ [], result.1) ≡ hexadecimal_escape rest.now }
    ensures within { result.1 ≤ length rest.now }
{
    let first = byte_at(rest, 1);
    let second = byte_at(rest, 2);
    if is_hexadecimal_digit(second) {
        ((digit_value(first) * 16 + digit_value(second)) as u8, 3)
    } else {
        (digit_value(first) as u8, 2)
    }
}

// The value of hexadecimal digits.
fn code_point(digits: &[u8]) -> u64
    requires { digits_value 16 digits.now ≤ 1114111 }
    ensures { result ≡ digits_value 16 digits.now }
{
    match value(16, digits) {
        Some(point) => point,
        None => 0,
    }
}

// Adds the code point of `u{`, hexadecimal digits and `}`, and gives how many bytes these are.
#[tactic(auto, unfolding(stan_model_grammar::specs::Texts::is_code_point))]
fn push_code_point(out: &mut Vec<u8>, rest: &[u8]) -> Result<usize, OutOfMemory>
    requires point { IsTrue (is_code_point rest.now 2) }
    requires within { 2 ≤ length rest.now }
    ensures value { IfOk result (λ used. (out.new.items ≡ out.old.items ++ (code_point_escape rest.now).0) × (used ≡ (code_point_escape rest.now).1)) }
    ensures within { IfOk result (λ used. used ≤ length rest.now) }
{
    let to = run_end(rest, HexadecimalDigits, 2);
    let _close = byte_at(rest, to);
    push_utf8(out, code_point(&rest[2..to]))?;
    Ok(to + 1)
}

fn begins_hexadecimal(rest: &[u8]) -> bool
    ensures value { result ≡ begins_hexadecimal rest.now }
{
    byte_at(rest, 0) == b'x' && is_hexadecimal_digit(byte_at(rest, 1))
}

fn begins_code_point(rest: &[u8]) -> bool
    ensures value { result ≡ begins_code_point rest.now }
    ensures within { IsTrue result → 2 ≤ length rest.now }
{
    byte_at(rest, 0) == b'u' && byte_at(rest, 1) == b'{' && is_code_point(rest, 2)
}

// Adds what the bytes behind a `\` mean with it, and gives how many of them belong to it.
#[tactic(auto, unfolding(stan_model_grammar::specs::Values::escape))]
fn push_escape(out: &mut Vec<u8>, rest: &[u8], quoted: bool) -> Result<usize, OutOfMemory>
    ensures value { IfOk result (λ used. (out.new.items ≡ out.old.items ++ (escape quoted rest.now).0) × (used ≡ (escape quoted rest.now).1)) }
    ensures within { IfOk result (λ used. used ≤ length rest.now) }
{
    let first = byte_at(rest, 0);
    if let Some(byte) = letter_escape(quoted, first) {
        out.push(byte)?;
        return Ok(1);
    }
    if is_octal_digit(first) {
        let (byte, used) = octal_escape(rest);
        out.push(byte)?;
        return Ok(used);
    }
    if begins_hexadecimal(rest) {
        let (byte, used) = hexadecimal_escape(rest);
        out.push(byte)?;
        return Ok(used);
    }
    if begins_code_point(rest) {
        return push_code_point(out, rest);
    }
    out.push(b'\\')?;
    Ok(0)
}

/// Bytes with their escapes resolved, of a text in `"`, which is `quoted`, or of a heredoc.
pub fn resolved(alloc: Global, bytes: &[u8], quoted: bool) -> Result<Vec<u8>, OutOfMemory>
    ensures { IfOk result (λ out. out.items ≡ resolved quoted 0 bytes.now) }
{
    let mut out = Vec::new(alloc);
    let mut at = 0;
    while at < bytes.len() {
        if bytes[at] == b'\\' {
            at += 1 + push_escape(&mut out, &bytes[at + 1..], quoted)?;
        } else {
            out.push(bytes[at])?;
            at += 1;
        }
    }
    Ok(out)
}

// Takes a byte of a text in `'`, where a `\` may stand before it, and gives whether it is such a `\`.
fn push_single(out: &mut Vec<u8>, escaped: bool, byte: u8) -> Result<bool, OutOfMemory>
    ensures { IfOk result (λ next. (rest : List ℕ) → out.new.items ++ single_resolved next rest ≡ out.old.items ++ single_resolved escaped (byte ∷ rest)) }
{
    if !escaped {
        if byte == b'\\' {
            return Ok(true);
        }
        out.push(byte)?;
        return Ok(false);
    }
    if byte == b'\\' || byte == b'\'' {
        out.push(byte)?;
        return Ok(false);
    }
    out.extend_from_slice(&[b'\\', byte])?;
    Ok(false)
}

/// Bytes with the escapes of a text in `'` resolved.
pub fn single_resolved(alloc: Global, bytes: &[u8]) -> Result<Vec<u8>, OutOfMemory>
    ensures { IfOk result (λ out. out.items ≡ single_resolved false bytes.now) }
{
    let mut out = Vec::new(alloc);
    let mut escaped = false;
    for byte in bytes {
        escaped = push_single(&mut out, escaped, *byte)?;
    }
    if escaped {
        out.push(b'\\')?;
    }
    Ok(out)
}

// Takes a byte of lines that lose `indent` blanks each, where this one may still lose `left`, and gives how many the next one may lose.
fn push_unindented(
    out: &mut Vec<u8>,
    indent: usize,
    left: usize,
    byte: u8,
) -> Result<usize, OutOfMemory>
    ensures { IfOk result (λ next. (rest : List ℕ) → out.new.items ++ unindented indent next rest ≡ out.old.items ++ unindented indent left (byte ∷ rest)) }
{
    if byte == b'\n' {
        out.push(byte)?;
        return Ok(indent);
    }
    if is_space(byte) && 0 < left {
        return Ok(left - 1);
    }
    out.push(byte)?;
    Ok(0)
}

/// Lines without so many blanks at the beginning of each, or as many as there are.
pub fn unindented(alloc: Global, bytes: &[u8], indent: usize) -> Result<Vec<u8>, OutOfMemory>
    ensures { IfOk result (λ out. out.items ≡ unindented indent indent bytes.now) }
{
    let mut out = Vec::new(alloc);
    let mut left = indent;
    for byte in bytes {
        left = push_unindented(&mut out, indent, left, *byte)?;
    }
    Ok(out)
}
