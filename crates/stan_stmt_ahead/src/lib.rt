//! The look-ahead of the parser of files: which kinds of tokens stand for what, and which production is read by the next of them.
#![tactic(auto)]

pub mod kinds;
pub mod rules;
