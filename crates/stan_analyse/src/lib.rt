//! The analysis of a file: what it is read as, what it declares and its faults.
#![tactic(auto)]

mod analyst;
mod facts;
mod faults;
mod lines;
mod reading;
mod rules;

pub use analyst::PhpAnalyst;
