//! The language: which tokens a source has, and which trees of expressions they spell (`specs`). Definitions and code share
//! the kinds of tokens and operators.
#![tactic(auto)]

pub mod keyword;
pub mod operators;
pub mod token;
