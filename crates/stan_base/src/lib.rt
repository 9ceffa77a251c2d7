//! Names and lines of PHP source, as every other crate reads them.
#![tactic(auto)]

mod ask_kind;
pub mod laws;
mod line;
mod memory;
mod name;

pub use ask_kind::AskKind;
pub use line::line_at;
pub use memory::OutOfMemory;
pub use name::{Name, begins_relative};
