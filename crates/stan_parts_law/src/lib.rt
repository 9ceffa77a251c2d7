//! What the parser of parts reads, by the parser on places that the laws of statements speak of. Lemmas alone, no code of the program.
#![tactic(auto)]

pub mod laws;
