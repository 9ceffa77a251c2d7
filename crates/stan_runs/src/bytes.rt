//! Single bytes of a text. Past its end stands 0, which belongs to nothing.

ghost use Rattle.std.specs.Prelude.{◌≡◌, ◌<◌, length, slice_index};
ghost use Rattle.stan_base.specs.Bytes.{is_blank, begins_identifier, continues_identifier};
ghost use Rattle.stan_model_grammar.specs.Runs.{is_digit, is_octal_digit, is_binary_digit, is_hexadecimal_digit, is_space};

/// The byte at a place, or 0 past the end.
pub fn byte_at(source: &[u8], at: usize) -> u8
    ensures value { result ≡ slice_index source.now at }
    ensures within { 0 < result → at < length source.now }
{
    source.get(at).copied().unwrap_or(0)
}

/// Whether it is a space, a tab, a line feed or a carriage return.
pub fn is_blank(byte: u8) -> bool
    ensures { result ≡ is_blank byte }
{
    matches!(byte, b' ' | b'\t' | b'\n' | b'\r')
}

/// Whether it is a space or a tab.
pub fn is_space(byte: u8) -> bool
    ensures { result ≡ is_space byte }
{
    byte == b' ' || byte == b'\t'
}

/// Whether an identifier may begin with it.
pub fn begins_identifier(byte: u8) -> bool
    ensures { result ≡ begins_identifier byte }
{
    matches!(byte, b'A'..=b'Z' | b'a'..=b'z' | b'_' | 0x80..)
}

/// Whether an identifier may go on with it.
pub fn continues_identifier(byte: u8) -> bool
    ensures { result ≡ continues_identifier byte }
{
    begins_identifier(byte) || is_digit(byte)
}

/// Whether it is a decimal digit.
pub fn is_digit(byte: u8) -> bool
    ensures { result ≡ is_digit byte }
{
    matches!(byte, b'0'..=b'9')
}

/// Whether it is an octal digit.
pub fn is_octal_digit(byte: u8) -> bool
    ensures { result ≡ is_octal_digit byte }
{
    matches!(byte, b'0'..=b'7')
}

/// Whether it is a binary digit.
pub fn is_binary_digit(byte: u8) -> bool
    ensures { result ≡ is_binary_digit byte }
{
    matches!(byte, b'0'..=b'1')
}

/// Whether it is a hexadecimal digit.
pub fn is_hexadecimal_digit(byte: u8) -> bool
    ensures { result ≡ is_hexadecimal_digit byte }
{
    matches!(byte, b'0'..=b'9' | b'A'..=b'F' | b'a'..=b'f')
}
