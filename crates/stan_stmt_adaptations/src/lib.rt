//! What stands behind the names in a `use` of traits in a class.
#![tactic(auto)]

pub mod adaptations;
pub mod aliases;
