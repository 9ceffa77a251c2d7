//! Parts of statements in which no statement stands: words, names, variables and constants.
#![tactic(auto)]

pub mod constants;
pub mod forms;
pub mod names;
pub mod words;
