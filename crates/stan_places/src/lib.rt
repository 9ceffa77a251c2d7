//! What stands at a place of the tokens: operators and how tightly they bind, words, written types and the braces of a body.
#![tactic(auto)]

pub mod bodies;
pub mod places;
pub mod stop;
pub mod strata;
pub mod types;
