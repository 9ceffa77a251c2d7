//! The names of functions and constants in statements, from left to right.
#![tactic(auto)]

mod own;
mod walk;

pub use walk::findings;
