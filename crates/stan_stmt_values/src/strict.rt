//! The word `strict_types`.

ghost use Rattle.std.specs.Prelude.{◌≡◌, slice_range};
ghost use Rattle.stan_model_readings.specs.Fronts.{is_strict_types};

use stan_model_grammar::token::Token;

const STRICT_TYPES: &[u8] = b"strict_types";

// The bytes of a token.
#[tactic(auto, using(crate::proofs::WordLemmas::slice_within))]
fn bytes_of(source: &[u8], token: Token) -> &[u8]
    ensures { result.now ≡ slice_range source.now token.start token.end }
{
    let length = source.len();
    let from = (token.start as usize).min(length);
    let to = (token.end as usize).min(length).max(from);
    &source[from..to]
}

/// Whether the token's bytes are the word `strict_types`, without case.
pub fn is_strict_types(source: &[u8], token: Token) -> bool
    ensures { result ≡ is_strict_types source.now token }
{
    bytes_of(source, token).eq_ignore_ascii_case(STRICT_TYPES)
}
