//! The parser of PHP's expressions.
#![tactic(auto)]

mod parser;

pub use parser::{MAX_DEPTH, Parsed, expression};
pub use stan_places::places::{after, kind_at, token_at};
