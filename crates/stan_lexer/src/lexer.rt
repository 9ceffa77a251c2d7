//! The tokens of a source.

ghost use Rattle.std.specs.Prelude.{◌≡◌, ◌≤◌, ◌<◌, ◌^◌, length, IfOk};
ghost use Rattle.std.specs.Str.{IsUtf8};
ghost use Rattle.stan_model_grammar.specs.Tokens.{AreTokens, IsCut};

use crate::cut::open_text;
use crate::joined::joined;
use crate::lexemes::lexemes;
use crate::opening::{has_opening, opening_start};
use crate::{Token, TokenKind};
use stan_base::OutOfMemory;
use std::alloc::Global;

// The tokens up to the first text that doesn't end. Its first token is `Bad`, and nothing follows.
fn cut(mut tokens: Vec<Token>) -> Result<Vec<Token>, OutOfMemory>
    ensures { IfOk result (λ ts. IsCut tokens.items ts.items) }
{
    let Some(first) = open_text(&tokens) else {
        return Ok(tokens);
    };
    let token = tokens[first];
    tokens.truncate(first);
    tokens.push(Token {
        kind: TokenKind::Bad,
        ..token
    })?;
    Ok(tokens)
}

/// The tokens of a source of at most 1,048,576 bytes, in order. A comment, a PHPDoc and an attribute are one token each, which the
/// grammar passes over. Where no token begins stands a last one, `Bad`. Only want of memory is refused.
pub fn lex(alloc: Global, source: &[u8]) -> Result<Vec<Token>, OutOfMemory>
    requires small { length source.now ≤ 1048576 }
    requires text { IsUtf8 source.now }
    ensures { IfOk result (λ ts. AreTokens source.now ts.items) }
{
    if !has_opening(source) {
        let bad = Token {
            kind: TokenKind::Bad,
            start: 0,
            end: 0,
        };
        let mut tokens = Vec::new(alloc);
        tokens.push(bad)?;
        return Ok(tokens);
    }
    let lexemes = lexemes(alloc, source, opening_start(source) + 5)?;
    cut(joined(alloc, &lexemes)?)
}
