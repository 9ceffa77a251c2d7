//! PHPDoc types, read from the tokens of a tag, in at most so many levels: exactly what `stan_doc_levels` reads of them.
#![tactic(auto)]

mod conditions;
mod lists;
mod types;

pub use types::{unary, written};
