//! What the parser on places reads of declarations and statements: the trees of files, and the longest front of the tokens. Lemmas alone, no
//! code of the program.
#![tactic(auto)]

pub mod laws;
