//! What files are read as: each file has one reading, and none is without. Lemmas alone, no code of the program.
#![tactic(auto)]

pub mod laws;
