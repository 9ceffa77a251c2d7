//! The bytes of a source that a token spells.

ghost use Rattle.std.specs.Prelude.{◌≡◌};
ghost use Rattle.stan_model_grammar.specs.Tokens.{spelling};

use stan_model_grammar::token::Token;

/// The bytes of a source that a token spells, cut at the end of the source. A token that ends before it begins spells none.
pub fn spelling_of<'a>(source: &'a [u8], token: &Token) -> &'a [u8]
    ensures { result.now ≡ spelling source.now token.now }
{
    let rest = &source[source.len().min(token.start as usize)..];
    let spelled = token.end.saturating_sub(token.start) as usize;
    &rest[..rest.len().min(spelled)]
}
