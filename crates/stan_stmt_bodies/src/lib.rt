//! What is read of expressions with the bodies of their closures: definitions and what follows from them, no code of the program.
#![tactic(auto)]

pub mod laws;
