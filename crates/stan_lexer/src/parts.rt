//! The tokens that the grammar reads, and the comments between them.

ghost use Rattle.std.specs.Prelude.{◌≡◌, IfOk};
ghost use Rattle.stan_model_grammar.specs.Tokens.{is_code, code_tokens, comments};

use crate::joined::is_comment;
use stan_base::OutOfMemory;
use stan_model_grammar::token::{Token, TokenKind};
use std::alloc::Global;

fn is_code(kind: TokenKind) -> bool
    ensures { result ≡ is_code kind }
{
    !matches!(
        kind,
        TokenKind::Comment | TokenKind::PhpDoc | TokenKind::Attribute
    )
}

/// The tokens but for comments and attributes, over which the grammar passes like blanks.
pub fn code_tokens(alloc: Global, tokens: &[Token]) -> Result<Vec<Token>, OutOfMemory>
    ensures { IfOk result (λ ts. ts.items ≡ code_tokens tokens.now) }
{
    let mut code = Vec::new(alloc);
    for token in tokens {
        if is_code(token.kind) {
            code.push(*token)?;
        }
    }
    Ok(code)
}

/// The comments among tokens, PHPDocs too.
pub fn comments(alloc: Global, tokens: &[Token]) -> Result<Vec<Token>, OutOfMemory>
    ensures { IfOk result (λ ts. ts.items ≡ comments tokens.now) }
{
    let mut comments = Vec::new(alloc);
    for token in tokens {
        if is_comment(token.kind) {
            comments.push(*token)?;
        }
    }
    Ok(comments)
}
