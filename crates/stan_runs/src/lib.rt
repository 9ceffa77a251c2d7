//! What stands at the places of a text: bytes, runs of places, numbers, and the fixed bytes of texts in quotes.
#![tactic(auto)]

pub mod bases;
pub mod bytes;
pub mod fixed;
pub mod numbers;
pub mod runs;
