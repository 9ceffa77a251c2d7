//! What of a type a test keeps, and what it takes away.
#![tactic(auto)]

mod falsy;
mod filter;
mod kept;
mod left;
mod push;
mod value;

pub use filter::Filter;
pub use kept::keep;
pub use left::without;
