//! What stands at a place of the tokens.

ghost use Rattle.std.specs.Prelude.{◌≡◌, ◌≢◌, ◌+◌, slice_get};
ghost use Rattle.stan_model_grammar.specs.declared.token.TokenKind.TheVariants as kinds;
ghost use Rattle.stan_model_grammar.specs.Strata as strata;
ghost use Rattle.stan_expr_rules.specs.Places as spec;

use crate::strata::{assignment_at, binary_at, joins};
use stan_model_grammar::operators::{AssignmentOperator, BinaryOperator};
use stan_model_grammar::token::{Token, TokenKind};

/// The kind of the token there: `End` where none stands.
#[tactic(auto, unfolding(stan_model_grammar::specs::Strata::kind_at))]
pub fn kind_at(tokens: &[Token], at: usize) -> TokenKind
    ensures { result ≡ strata.kind_at tokens.now at }
{
    match tokens.get(at) {
        None => TokenKind::End,
        Some(token) => token.kind,
    }
}

/// The token there, if one stands there.
pub fn token_at(tokens: &[Token], at: usize) -> Option<Token>
    ensures { result ≡ slice_get tokens.now at }
{
    match tokens.get(at) {
        None => None,
        Some(token) => Some(*token),
    }
}

/// The kind of the token behind this place.
pub fn next_kind(tokens: &[Token], at: usize) -> TokenKind
    ensures { result ≡ strata.kind_at tokens.now (at + 1) }
{
    if at < tokens.len() {
        kind_at(tokens, at + 1)
    } else {
        TokenKind::End
    }
}

/// The place behind a token of this kind, if one stands there.
#[tactic(auto, unfolding(stan_expr_rules::specs::Places::after, stan_expr_rules::specs::Places::same_kind))]
pub fn after(tokens: &[Token], kind: TokenKind, at: usize) -> Option<usize>
    ensures { result ≡ spec.after tokens.now kind at }
{
    match tokens.get(at) {
        None => None,
        Some(token) => {
            if token.kind == kind {
                Some(at + 1)
            } else {
                None
            }
        }
    }
}

/// The place behind a token of this kind, if one stands behind this place.
pub fn after_next(tokens: &[Token], kind: TokenKind, at: usize) -> Option<usize>
    ensures { result ≡ spec.after tokens.now kind (at + 1) }
{
    if at < tokens.len() {
        after(tokens, kind, at + 1)
    } else {
        None
    }
}

/// Whether such a token stands there, and the place behind it.
#[tactic(auto, unfolding(stan_expr_rules::specs::Places::may))]
pub fn may(tokens: &[Token], kind: TokenKind, at: usize) -> (bool, usize)
    ensures { result ≡ spec.may tokens.now kind at }
{
    match after(tokens, kind, at) {
        None => (false, at),
        Some(to) => (true, to),
    }
}

/// The stratum in which the token there goes on with the expression before it.
#[tactic(auto, unfolding(stan_expr_rules::specs::Places::joins_at))]
pub fn joins_at(tokens: &[Token], at: usize) -> u8
    ensures { result ≡ spec.joins_at tokens.now at }
{
    joins(kind_at(tokens, at), next_kind(tokens, at))
}

/// The operator between operands that begins there.
#[tactic(auto, unfolding(stan_expr_rules::specs::Places::operator_at))]
pub fn operator_at(tokens: &[Token], at: usize) -> Option<BinaryOperator>
    ensures { result ≡ spec.operator_at tokens.now at }
{
    binary_at(kind_at(tokens, at), next_kind(tokens, at))
}

/// The operator of an assignment that begins there.
#[tactic(auto, unfolding(stan_expr_rules::specs::Places::assigning_at))]
pub fn assigning_at(tokens: &[Token], at: usize) -> Option<AssignmentOperator>
    ensures { result ≡ spec.assigning_at tokens.now at }
{
    assignment_at(kind_at(tokens, at), next_kind(tokens, at))
}
