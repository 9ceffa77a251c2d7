//! Brackets that are awaited.

ghost use Rattle.std.specs.Prelude.{◌≡◌, reverse, IfOk, true};
ghost use Rattle.stan_model_doc.specs.Grammar.{closer, is_closer, stops};
ghost use Rattle.stan_doc_texts.specs.Walk.{stop_of, opened, left, turn_of, is_outside, marked};
ghost use Rattle.stan_doc_texts.specs.declared.brackets.Turn.TheVariants.{Goes};

use crate::extent::Border;
use stan_model_doc::token::DocKind;
use std::alloc::AllocError;

/// What a token does to a text.
#[derive(Clone, Copy, PartialEq, Eq)]
pub enum Turn {
    /// The text goes on.
    Goes,
    /// It ends before the token.
    Ends,
    /// The token closes another bracket than the one that is awaited.
    Breaks,
}

fn closer(kind: DocKind) -> Option<DocKind>
    ensures { result ≡ closer kind }
{
    match kind {
        DocKind::LeftParenthesis => Some(DocKind::RightParenthesis),
        DocKind::LeftBracket => Some(DocKind::RightBracket),
        DocKind::LeftBrace => Some(DocKind::RightBrace),
        _ => None,
    }
}

fn is_closer(kind: DocKind) -> bool
    ensures { result ≡ is_closer kind }
{
    match kind {
        DocKind::RightParenthesis => true,
        DocKind::RightBracket => true,
        DocKind::RightBrace => true,
        _ => false,
    }
}

#[tactic(auto, unfolding(stan_model_doc::specs::Tokens::same_kind))]
fn stops(border: Border, kind: DocKind) -> bool
    ensures { result ≡ stops (stop_of border) kind }
{
    match border {
        Border::Nowhere => false,
        Border::AtComma => kind == DocKind::Comma,
    }
}

// Where a closing bracket stands. The innermost bracket is awaited last.
#[tactic(auto, unfolding(stan_model_doc::specs::Tokens::same_kind))]
fn close(awaited: &mut Vec<DocKind>, kind: DocKind) -> Turn
    requires { is_closer kind ≡ true }
    ensures turn { (border : Border) → result ≡ turn_of (stop_of border) (reverse awaited.old.items) kind }
    ensures awaited { result ≡ Goes → reverse awaited.new.items ≡ left (reverse awaited.old.items) kind }
{
    match awaited.pop() {
        None => Turn::Ends,
        Some(last) => {
            if kind == last {
                Turn::Goes
            } else {
                Turn::Breaks
            }
        }
    }
}

fn open(awaited: &mut Vec<DocKind>, kind: DocKind) -> Result<(), AllocError>
    ensures { IfOk result (λ _. reverse awaited.new.items ≡ opened (reverse awaited.old.items) kind) }
{
    if let Some(close) = closer(kind) {
        awaited.push(close)?;
    }
    Ok(())
}

/// Whether no bracket is awaited.
pub fn is_outside(awaited: &Vec<DocKind>) -> bool
    ensures { result ≡ is_outside (reverse awaited.now.items) }
{
    awaited.is_empty()
}

/// This place, if no bracket is awaited, or else the last one.
pub fn marked(awaited: &Vec<DocKind>, place: usize, last: usize) -> usize
    ensures { result ≡ marked (reverse awaited.now.items) place last }
{
    if is_outside(awaited) { place } else { last }
}

/// What a token of this kind does to a text in which these brackets are awaited, the innermost last.
pub fn take(border: Border, awaited: &mut Vec<DocKind>, kind: DocKind) -> Result<Turn, AllocError>
    ensures turn { IfOk result (λ t. t ≡ turn_of (stop_of border) (reverse awaited.old.items) kind) }
    ensures awaited { IfOk result (λ t. t ≡ Goes → reverse awaited.new.items ≡ left (reverse awaited.old.items) kind) }
{
    if is_closer(kind) {
        return Ok(close(awaited, kind));
    }
    if awaited.is_empty() && stops(border, kind) {
        return Ok(Turn::Ends);
    }
    open(awaited, kind)?;
    Ok(Turn::Goes)
}
