//! Single bytes and runs of them. Past the end stands 0, which belongs to nothing.

ghost use Rattle.std.specs.Prelude.{◌≡◌, ◌≤◌, ◌<◌, length, slice_index};
ghost use Rattle.std.specs.List.{prefix_len};
ghost use Rattle.stan_model_neon.specs.Characters.{is_blank, is_digit, is_quote, is_in_key, begins_plain};
ghost use Rattle.stan_neon_scalars.specs.Quotes.{ends};

/// The byte at a place, or 0 past the end.
pub fn byte_at(bytes: &[u8], at: usize) -> u8
    ensures value { result ≡ slice_index bytes.now at }
    ensures within { 0 < result → at < length bytes.now }
{
    bytes.get(at).copied().unwrap_or(0)
}

/// Whether a byte is a space or a tab.
pub fn is_blank(byte: u8) -> bool
    ensures { result ≡ is_blank byte }
{
    byte == b' ' || byte == b'\t'
}

pub fn is_digit(byte: u8) -> bool
    ensures { result ≡ is_digit byte }
{
    matches!(byte, b'0'..=b'9')
}

pub fn is_quote(byte: u8) -> bool
    ensures { result ≡ is_quote byte }
{
    byte == b'"' || byte == b'\''
}

pub fn is_in_key(byte: u8) -> bool
    ensures { result ≡ is_in_key byte }
{
    matches!(byte, b'0'..=b'9' | b'A'..=b'Z' | b'a'..=b'z' | b'_' | b'-' | b'.')
}

pub fn begins_plain(byte: u8) -> bool
    ensures { result ≡ begins_plain byte }
{
    !matches!(
        byte,
        b' ' | b'\t' | b'"' | b'\'' | b'[' | b']' | b'{' | b'}' | b'#' | b',' | b'-' | b':'
    )
}

/// How many blanks stand at the front.
pub fn blanks(bytes: &[u8]) -> usize
    ensures value { result ≡ prefix_len is_blank bytes.now }
    ensures within { result ≤ length bytes.now }
{
    for (i, byte) in bytes.iter().enumerate() {
        if !is_blank(*byte) {
            return i;
        }
    }
    bytes.len()
}

/// How many characters of a bare key stand at the front.
pub fn in_key(bytes: &[u8]) -> usize
    ensures value { result ≡ prefix_len is_in_key bytes.now }
    ensures within { result ≤ length bytes.now }
{
    for (i, byte) in bytes.iter().enumerate() {
        if !is_in_key(*byte) {
            return i;
        }
    }
    bytes.len()
}

/// Whether a line may end here: with blanks, or with a blank and a comment.
#[tactic(auto, unfolding(crate::specs::Quotes::ends))]
pub fn ends(bytes: &[u8]) -> bool
    ensures { result ≡ ends bytes.now }
{
    let rest = &bytes[blanks(bytes)..];
    rest.is_empty() || (byte_at(rest, 0) == b'#' && is_blank(byte_at(bytes, 0)))
}
