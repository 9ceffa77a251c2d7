//! A plain slow reading of tokens, for a comparison with `lex`.
#![tactic(auto)]

mod slow;

pub use slow::compared;
