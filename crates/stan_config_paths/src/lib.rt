//! Paths of configuration files, and sets of texts.
#![tactic(auto)]

mod paths;
mod text_set;

pub use paths::resolved;
pub use text_set::TextSet;
