//! Declarations of functions, classes, interfaces and traits.
#![tactic(auto)]

pub mod classes;
pub mod functions;
