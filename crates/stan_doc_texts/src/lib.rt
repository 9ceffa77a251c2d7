//! Texts of any tokens in which brackets match: what stands in the brackets of a `callable`, and behind the `=` of a parameter.
#![tactic(auto)]

mod brackets;
mod extent;

pub use extent::{Border, any_at, most};
