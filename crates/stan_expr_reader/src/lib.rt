//! Expressions, read from the tokens with at most so many levels.
#![tactic(auto)]

mod operands;
mod operators;
mod parser;

pub use parser::{below, expression_at};
