//! Expressions as parts of statements: up to an end token, within the levels, and with what the bodies of their closures hold.
#![tactic(auto)]

pub mod bodies;
pub mod expressions;
pub mod reader;
pub mod strict;
