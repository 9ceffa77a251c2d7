//! The union of types of which no part touches another, in one walk over both.
#![tactic(auto)]

mod alone;
mod merge;
mod unite;

pub use unite::merged;
