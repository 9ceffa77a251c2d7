//! Declarations and statements at the top: namespaces, `use` declarations and statements.
#![tactic(auto)]

pub mod plain;
pub mod tops;
