//! Configuration: what the files of a project say (`specs`). Definitions and code share the keys.
#![tactic(auto)]

pub mod keys;
pub mod place;
