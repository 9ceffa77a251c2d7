//! Laws of NEON's values.
#![tactic(auto)]

pub mod laws;
