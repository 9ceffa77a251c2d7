//! The greedy tree of an expression takes the most tokens, so it is the tree of the tokens. Lemmas alone, no code of the program.
#![tactic(auto)]

pub mod laws;
