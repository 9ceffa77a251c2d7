//! What stands at the front of a line: keys, scalars and lists of scalars.
#![tactic(auto)]

mod bytes;
mod numbers;
mod plain;
mod quotes;
mod scalars;

pub use bytes::{blanks, byte_at, ends, is_blank};
pub use quotes::{ReadText, key};
pub use scalars::value;
