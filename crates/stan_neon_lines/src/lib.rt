//! The lines of a NEON text: what stands in each.
#![tactic(auto)]

mod entries;
mod lines;

pub use lines::{Feed, Line};
