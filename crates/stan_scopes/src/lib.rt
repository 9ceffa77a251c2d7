//! The names that are in force at each place of a file.
#![tactic(auto)]

mod scopes;
mod spelling;
mod uses;

pub use scopes::{block, enter, outside};
pub use spelling::spelling_of;
