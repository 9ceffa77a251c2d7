//! Parts of a row, and the signs that stand in them for bytes that can't be seen.

ghost use Rattle.std.specs.Prelude.{◌≡◌, IfOk, string_bytes};
ghost use Rattle.stan_rows.specs.Signs.{ArePartsOf, meant_char, plain_text};

use stan_base::OutOfMemory;
use std::alloc::Global;

// What a character of a row stands for.
fn meant(character: char) -> char
    ensures { result ≡ meant_char character }
{
    match character {
        '␠' => ' ',
        '␄' => '\u{4}',
        '␇' => '\u{7}',
        '␉' => '\t',
        '␊' => '\n',
        '␋' => '\u{b}',
        '␌' => '\u{c}',
        '␍' => '\r',
        '␛' => '\u{1b}',
        '␢' => '\u{feff}',
        _ => character,
    }
}

/// A text of a row with the bytes for which its signs stand.
pub fn plain(alloc: Global, text: &str) -> Result<String, OutOfMemory>
    ensures { IfOk result (λ plain. string_bytes plain ≡ plain_text text.now) }
{
    let mut out = String::new(alloc);
    for character in text.chars() {
        out.push(meant(character))?;
    }
    Ok(out)
}

/// The parts of a text before and behind its first `⋯`, without the blanks around them. Where none stands, all is the first part.
pub fn parts(text: &str) -> (&str, &str)
    ensures { ArePartsOf text.now result.0.now result.1.now }
{
    match text.split_once("⋯") {
        Some((first, second)) => (first.trim(), second.trim()),
        None => (text.trim(), ""),
    }
}

/// The words of a text, which stand apart by blanks, with the bytes for which their signs stand.
pub fn words(alloc: Global, text: &str) -> Result<Vec<String>, OutOfMemory> {
    let mut words = Vec::new(alloc);
    for word in text.split(' ') {
        words.push(plain(alloc, word)?)?;
    }
    Ok(words)
}

/// The number that a text spells, or 0.
pub fn number(text: &str) -> u32 {
    text.parse::<u32>().unwrap_or(0)
}

/// The text of bytes, or `no text` where they aren't UTF-8.
pub fn text_of(alloc: Global, bytes: &[u8]) -> Result<String, OutOfMemory> {
    match str::from_utf8(bytes) {
        Ok(text) => Ok(String::from_str(alloc, text)?),
        Err(_) => Ok(String::from_str(alloc, "no text")?),
    }
}
