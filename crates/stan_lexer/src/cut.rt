//! The first text that doesn't end.

ghost use Rattle.std.specs.Prelude.{◌≡◌, ◌<◌, ◌^◌, length, MatchOption};
ghost use Rattle.stan_model_grammar.specs.Tokens.{is_text_start, is_text_end, texts_behind, open_texts, IsOpenText};

use stan_model_grammar::token::{Token, TokenKind};

fn is_text_start(kind: TokenKind) -> bool
    ensures { result ≡ is_text_start kind }
{
    matches!(kind, TokenKind::TextStart)
}

fn is_text_end(kind: TokenKind) -> bool
    ensures { result ≡ is_text_end kind }
{
    matches!(kind, TokenKind::TextEnd)
}

// How many texts are open behind a token before which `count` are.
fn texts_behind(count: usize, token: Token) -> usize
    requires { count < 2 ^ 63 }
    ensures { result ≡ texts_behind count token }
{
    if is_text_start(token.kind) {
        count + 1
    } else if is_text_end(token.kind) {
        count.saturating_sub(1)
    } else {
        count
    }
}

/// The token that begins the first text that doesn't end, by its place in the list.
#[tactic(auto, using(crate::proofs::CutLemmas::cut_steps))]
pub fn open_text(tokens: &[Token]) -> Option<usize>
    ensures { MatchOption result (open_texts tokens.now ≡ 0) (λ k. IsOpenText tokens.now k) }
{
    let mut count = 0;
    let mut first = 0;
    for (i, token) in tokens.iter().enumerate() {
        if count == 0 {
            first = i;
        }
        count = texts_behind(count, *token);
    }
    if count == 0 { None } else { Some(first) }
}
