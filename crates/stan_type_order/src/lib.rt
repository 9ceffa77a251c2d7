//! The order of types and of their parts: by kind number, and then by the bytes of the fields.
#![tactic(auto)]

mod compare;
mod fields;
mod kinds;

pub use compare::{compare_parts, compare_types};
pub use kinds::kind;
