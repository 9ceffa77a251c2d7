//! NEON: which trees the lines of a text spell (`specs`). Definitions and code share the trees.
#![tactic(auto)]

pub mod node;
pub mod text;
