//! Parts of statements that are lists, heads in brackets, and blocks.
#![tactic(auto)]

pub mod blocks;
pub mod heads;
pub mod targets;
pub mod values;
