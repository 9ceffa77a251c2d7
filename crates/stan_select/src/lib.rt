//! Which files of a folder a configuration chooses: those that are analysed, and those that are only scanned.
#![tactic(auto)]

pub mod laws;
mod lookups;
mod names;
mod selection;

pub use selection::select;
