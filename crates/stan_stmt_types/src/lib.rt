//! Reading written types and parameters.
#![tactic(auto)]

pub mod parameters;
pub mod properties;
pub mod types;
