//! What the analysis of a file gives.
#![tactic(auto)]

pub mod laws;
mod verdict;

pub use verdict::{Collected, Fault, FileFaults, Verdict};
