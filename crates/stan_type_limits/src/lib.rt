//! How large a type is.
#![tactic(auto)]

mod limits;

pub use limits::is_within;
