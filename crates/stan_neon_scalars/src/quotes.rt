//! Quoted texts and keys.

ghost use Rattle.std.specs.Prelude.{◌≡◌, ◌≤◌, ◌<◌, ◌==◌, ◌&&◌, if◌then◌else◌, Some, None, length, slice_index, drop, option_map, IfOk, IfSome};
ghost use Rattle.stan_model_neon.specs.Characters.{is_quote, letter, escape};
ghost use Rattle.std.specs.Str.{is_utf8};
ghost use Rattle.stan_neon_scalars.specs.Quotes.{quoted, bare, key};
ghost use Rattle.stan_neon_scalars.specs.Read.{read_bytes, read_text};

use crate::bytes::{byte_at, in_key, is_in_key, is_quote};
use stan_base::OutOfMemory;
use stan_model_neon::text::Text;
use std::alloc::Global;

/// Bytes that were read, and the place behind them.
#[derive(Drop)]
pub(crate) struct ReadBytes {
    pub bytes: Vec<u8>,
    pub end: usize,
}

/// A text that was read, and the place behind it.
#[derive(Drop)]
pub struct ReadText {
    pub text: Text,
    pub end: usize,
}

fn letter(byte: u8) -> Option<u8>
    ensures { result ≡ letter byte }
{
    match byte {
        b'\\' | b'"' => Some(byte),
        b'n' => Some(b'\n'),
        b't' => Some(b'\t'),
        b'r' => Some(b'\r'),
        _ => None,
    }
}

// What a byte and the one behind it mean, where they stand for one.
fn escape(quote: u8, byte: u8, next: u8) -> Option<u8>
    ensures value { result ≡ escape quote byte next }
    ensures followed { IfSome result (λ _. 0 < next) }
{
    if quote == b'\'' {
        if byte == b'\'' && next == b'\'' {
            Some(b'\'')
        } else {
            None
        }
    } else if byte == b'\\' {
        letter(next)
    } else {
        None
    }
}

// A `\` between `"` that begins no escape.
fn is_lost(quote: u8, byte: u8) -> bool
    ensures { result ≡ (quote == 34) && (byte == 92) }
{
    quote == b'"' && byte == b'\\'
}

/// The text between the quotes at the front. None where no quote stands there, or where it isn't closed as its kind wants.
#[tactic(auto, unfolding(crate::specs::Quotes::quoted))]
pub(crate) fn quoted(alloc: Global, bytes: &[u8]) -> Result<Option<ReadBytes>, OutOfMemory>
    ensures value { IfOk result (λ read. option_map (read_bytes bytes.now) read ≡ quoted bytes.now) }
    ensures within { IfOk result (λ read. IfSome read (λ r. r.end ≤ length bytes.now)) }
{
    let quote = byte_at(bytes, 0);
    if !is_quote(quote) {
        return Ok(None);
    }
    let mut text = Vec::new(alloc);
    let mut at = 1;
    while at < bytes.len() {
        let byte = bytes[at];
        if let Some(meant) = escape(quote, byte, byte_at(bytes, at + 1)) {
            text.push(meant)?;
            at += 2;
        } else if byte == quote {
            return Ok(Some(ReadBytes {
                bytes: text,
                end: at + 1,
            }));
        } else if is_lost(quote, byte) {
            return Ok(None);
        } else {
            text.push(byte)?;
            at += 1;
        }
    }
    Ok(None)
}

// The run of characters of a key.
#[tactic(auto, unfolding(crate::specs::Quotes::bare))]
fn bare(alloc: Global, bytes: &[u8]) -> Result<Option<ReadBytes>, OutOfMemory>
    ensures value { IfOk result (λ read. option_map (read_bytes bytes.now) read ≡ bare bytes.now) }
    ensures within { IfOk result (λ read. IfSome read (λ r. r.end ≤ length bytes.now)) }
{
    if !is_in_key(byte_at(bytes, 0)) {
        return Ok(None);
    }
    let end = in_key(bytes);
    let bytes = bytes[..end].to_vec(alloc)?;
    Ok(Some(ReadBytes { bytes, end }))
}

// A text of these bytes. None where they are not UTF-8.
pub(crate) fn text_of(alloc: Global, bytes: &[u8]) -> Result<Option<Text>, OutOfMemory>
    ensures { IfOk result (λ text. text ≡ (if is_utf8 bytes.now then Some bytes.now else None)) }
{
    match str::from_utf8(bytes) {
        Ok(text) => {
            let text = String::from_str(alloc, text)?;
            Ok(Some(Text::new(text)))
        }
        Err(_) => Ok(None),
    }
}

fn bare_or_quoted(alloc: Global, bytes: &[u8]) -> Result<Option<ReadBytes>, OutOfMemory>
    ensures value { IfOk result (λ read. option_map (read_bytes bytes.now) read ≡ (if is_quote (slice_index bytes.now 0) then quoted bytes.now else bare bytes.now)) }
    ensures within { IfOk result (λ read. IfSome read (λ r. r.end ≤ length bytes.now)) }
{
    if is_quote(byte_at(bytes, 0)) {
        quoted(alloc, bytes)
    } else {
        bare(alloc, bytes)
    }
}

/// The key at the front, bare or quoted.
#[tactic(auto, unfolding(crate::specs::Quotes::key))]
pub fn key(alloc: Global, bytes: &[u8]) -> Result<Option<ReadText>, OutOfMemory>
    ensures value { IfOk result (λ read. option_map (read_text bytes.now) read ≡ key bytes.now) }
    ensures within { IfOk result (λ read. IfSome read (λ r. r.end ≤ length bytes.now)) }
{
    let Some(read) = bare_or_quoted(alloc, bytes)? else {
        return Ok(None);
    };
    let Some(text) = text_of(alloc, read.bytes.as_slice())? else {
        return Ok(None);
    };
    Ok(Some(ReadText {
        text,
        end: read.end,
    }))
}
