//! Answers that may be open.
#![tactic(auto)]

mod tri;

pub use tri::Tri;
