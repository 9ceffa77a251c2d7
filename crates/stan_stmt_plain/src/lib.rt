//! Statements in which no other stands but in a block.
#![tactic(auto)]

pub mod declarations;
pub mod simple;
