//! The reading of all levels of a PHPDoc type, as a function on places: what the reader has to give.
#![tactic(auto)]

pub mod laws;
