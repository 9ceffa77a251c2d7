//! Statements that hold others, each with its parts.
#![tactic(auto)]

pub mod branches;
pub mod handlers;
pub mod loops;
pub mod switches;
