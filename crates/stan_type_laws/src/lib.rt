//! Laws of the union of types, and of tests on them.
#![tactic(auto)]

pub mod laws;
