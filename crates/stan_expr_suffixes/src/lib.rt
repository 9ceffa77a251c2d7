//! What is appended to an expression, and the class of a `new`.
#![tactic(auto)]

mod classes;
mod steps;

pub use classes::new;
pub use steps::suffixes;
