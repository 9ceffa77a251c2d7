//! Full names of written ones.
#![tactic(auto)]

mod names;

pub use names::Names;
