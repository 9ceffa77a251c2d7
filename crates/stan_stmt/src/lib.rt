//! The tree of a file: its declarations and statements, each read once from left to right.
#![tactic(auto)]

mod files;
pub mod fronts;
pub mod readers;
pub mod statements;

pub use files::{FileStop, file};
