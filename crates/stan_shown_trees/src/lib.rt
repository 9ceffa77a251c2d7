//! Trees of expressions as text.
#![tactic(auto)]

mod marks;
mod shown;

pub use shown::Printer;
