//! How deep types of PHPDoc are.
#![tactic(auto)]

mod depths;

pub use depths::{intersection_depth, unary_depth, written_depth};
