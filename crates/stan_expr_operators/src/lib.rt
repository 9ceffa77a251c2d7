//! Operators behind an operand that is read, a stratum at a time.
#![tactic(auto)]

mod operators;

pub use operators::at_stratum;
