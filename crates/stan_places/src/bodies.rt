//! The body of a closure, which is found by its braces and not read.

ghost use Rattle.std.specs.Prelude.{◌≡◌, ◌<◌, ◌^◌, ℕ, Some, length};
ghost use Rattle.stan_model_grammar.specs.Expressions as grammar;
ghost use Rattle.stan_places.specs.Gives.{Gives, at};
ghost use Rattle.stan_expr_rules.specs.Parse as parse;
ghost use Rattle.stan_syntax.specs.Tree.{body_of};

use crate::places::{after, token_at};
use crate::stop::Stop;
use stan_model_grammar::token::{Token, TokenKind};
use stan_syntax::Body;

/// Whether a token of this kind opens a brace: `{`, or the opening of an insertion.
pub fn opens_brace(kind: TokenKind) -> bool
    ensures { result ≡ grammar.opens_brace kind }
{
    match kind {
        TokenKind::LeftBrace | TokenKind::InsertionStart => true,
        _ => false,
    }
}

/// Whether a token of this kind closes a brace.
pub fn closes_brace(kind: TokenKind) -> bool
    ensures { result ≡ grammar.closes_brace kind }
{
    match kind {
        TokenKind::RightBrace | TokenKind::InsertionEnd => true,
        _ => false,
    }
}

/// How many braces are open behind a token.
pub fn braces_behind(count: usize, token: Token) -> usize
    requires { count < 2 ^ 32 }
    ensures { result ≡ grammar.braces_behind count token }
{
    if opens_brace(token.kind) {
        count + 1
    } else if closes_brace(token.kind) {
        count.saturating_sub(1)
    } else {
        count
    }
}

/// The place of the brace that closes the one before a place.
#[tactic(auto, unfolding(stan_expr_rules::specs::Parse::closing))]
pub fn closing(tokens: &[Token], from: usize) -> Option<usize>
    requires { length tokens.now < 2 ^ 32 }
    ensures value { result ≡ parse.closing tokens.now from }
    ensures within { (n : ℕ) → result ≡ Some n → n < length tokens.now }
{
    let mut count = 1;
    let mut place = from;
    for _turn in 0..tokens.len() + 1 {
        let token = token_at(tokens, place)?;
        count = braces_behind(count, token);
        if count == 0 {
            return Some(place);
        }
        place += 1;
    }
    None
}

/// A body, from its `{` to its `}`.
#[tactic(auto, using(stan_syntax::proofs::Layers::layers), unfolding(stan_expr_rules::specs::Parse::body))]
pub fn body(tokens: &[Token], place: usize) -> Result<(Body, usize), Stop>
    requires { length tokens.now < 2 ^ 32 }
    ensures { Gives (at body_of) result (parse.body tokens.now place) }
{
    let Some(from) = after(tokens, TokenKind::LeftBrace, place) else {
        return Err(Stop::Absent);
    };
    let Some(last) = closing(tokens, from) else {
        return Err(Stop::Absent);
    };
    let Some(to) = after(tokens, TokenKind::RightBrace, last) else {
        return Err(Stop::Absent);
    };
    let body = Body::Held {
        from: from as u32,
        to: last as u32,
    };
    Ok((body, to))
}
