//! Trees of declarations and statements over their tokens: one tree at most, the look-ahead that finds it, no front of another, and the
//! longest front of a list of tokens. Lemmas alone, no code of the program.
#![tactic(auto)]

pub mod laws;
