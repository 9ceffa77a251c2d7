//! The parser of expressions.

ghost use Rattle.std.specs.Prelude.{◌<◌, ◌^◌, IfOk, length};
ghost use Rattle.stan_expr.specs.Answer.{Answers};

use stan_base::OutOfMemory;
use stan_expr_reader::expression_at;
use stan_model_grammar::token::Token;
use stan_places::places::kind_at;
use stan_places::stop::Stop;
use stan_places::strata::is_end;
use stan_syntax::Expr;
use std::alloc::Global;

/// How deep a tree may be.
pub const MAX_DEPTH: u32 = 200;

/// What a parser answers.
#[derive(Drop)]
pub enum Parsed<T> {
    /// What was read, and the place behind it.
    Done(T, u32),
    /// No such thing stands there, or it is too deep.
    Absent,
}

/// The expression that begins at this place of the tokens, which have no comments and attributes (`stan_lexer::code_tokens`), where
/// `levels` levels are open already. Bodies of closures are held.
///
/// `Done` gives the tree of the tokens and the place behind it, where an end token or nothing stands. With `levels` it is at most 200
/// deep. `Absent` comes where no tree spells the tokens up to an end, or where the tree of those tokens is deeper.
pub fn expression(
    alloc: Global,
    tokens: &[Token],
    at: u32,
    levels: u32,
) -> Result<Parsed<Expr>, OutOfMemory>
    requires { length tokens.now < 2 ^ 32 }
    ensures { IfOk result (λ answer. Answers tokens.now at levels answer) }
{
    if levels > MAX_DEPTH {
        return Ok(Parsed::Absent);
    }
    let most = MAX_DEPTH - levels;
    match expression_at(alloc, tokens, most, at as usize) {
        Err(Stop::Memory) => Err(OutOfMemory),
        Err(Stop::Absent) => Ok(Parsed::Absent),
        Ok((e, to)) => {
            if !is_end(kind_at(tokens, to)) {
                drop(e);
                return Ok(Parsed::Absent);
            }
            if most < e.depth() {
                drop(e);
                return Ok(Parsed::Absent);
            }
            Ok(Parsed::Done(e, to as u32))
        }
    }
}
