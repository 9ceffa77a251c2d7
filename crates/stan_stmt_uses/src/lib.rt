//! Parts of `use` declarations.
#![tactic(auto)]

pub mod groups;
pub mod lists;
pub mod uses;
