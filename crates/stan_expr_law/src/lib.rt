//! Trees of expressions over their tokens: where they stand, how many tokens they spell, which names they call, and that tokens up to an
//! end which a tree spells have a greedy tree. Lemmas alone, no code of the program.
#![tactic(auto)]

pub mod laws;
