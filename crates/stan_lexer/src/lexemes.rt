//! The lexemes of a source: its tokens before attributes are joined.

ghost use Rattle.std.specs.Prelude.{◌≡◌, ◌≤◌, ◌<◌, ◌^◌, length, [], OnOk, IfOk};
ghost use Rattle.stan_model_grammar.specs.Tokens.{top, open_behind, is_bad, AreLexemes};

use crate::tokens::{is_in_brace, is_in_bracket, lexeme, next_start};
use stan_base::OutOfMemory;
use stan_model_grammar::token::{Opening, Token, TokenKind};
use std::alloc::Global;

// The innermost of what is open.
fn top(stack: &Vec<Opening>) -> Option<Opening>
    ensures { result ≡ top stack.now.items }
{
    stack.last().copied()
}

// Opens and closes what a token of this kind opens and closes.
fn follow(stack: &mut Vec<Opening>, kind: TokenKind) -> Result<(), OutOfMemory>
    ensures { OnOk result (stack.new.items ≡ open_behind kind stack.old.items) }
{
    let top = top(stack);
    match kind {
        TokenKind::TextStart => stack.push(Opening::Text)?,
        TokenKind::InsertionStart => stack.push(Opening::Insertion)?,
        TokenKind::AttributeStart => stack.push(Opening::Bracket)?,
        TokenKind::LeftBrace => {
            if !is_in_bracket(top) {
                stack.push(Opening::Brace)?;
            }
        }
        TokenKind::TextEnd | TokenKind::InsertionEnd | TokenKind::AttributeEnd => {
            stack.pop();
        }
        TokenKind::RightBrace => {
            if is_in_brace(top) {
                stack.pop();
            }
        }
        _ => {}
    }
    Ok(())
}

fn is_bad(kind: TokenKind) -> bool
    ensures { result ≡ is_bad kind }
{
    matches!(kind, TokenKind::Bad)
}

/// The lexemes from a place on, up to the end or to a place at which none begins.
pub fn lexemes(alloc: Global, source: &[u8], from: usize) -> Result<Vec<Token>, OutOfMemory>
    requires within { from ≤ length source.now }
    requires small { length source.now < 2 ^ 32 }
    ensures { IfOk result (λ ts. AreLexemes source.now [] from ts.items) }
{
    let mut stack = Vec::new(alloc);
    let mut lexemes = Vec::new(alloc);
    let mut at = from;
    'lexemes: loop {
        let top = top(&stack);
        let start = next_start(source, top, at);
        if start >= source.len() {
            break;
        }
        let (kind, end) = lexeme(source, top, start);
        lexemes.push(Token {
            kind,
            start: start as u32,
            end: end as u32,
        })?;
        if is_bad(kind) {
            break;
        }
        follow(&mut stack, kind)?;
        at = end;
    }
    Ok(lexemes)
}
