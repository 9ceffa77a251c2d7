//! The names of functions and constants in an expression, from left to right.
#![tactic(auto)]

mod found;
mod names;
mod walk;

pub use found::{Finding, Found, push};
pub use walk::expr_found;
