//! The text of a type, as messages show it.
#![tactic(auto)]

pub mod laws;
mod parts;
mod scalars;

pub use parts::text;
