//! NEON: reads the tree of a text.
#![tactic(auto)]

mod blocks;
mod document;
pub mod laws;
mod reader;

pub use document::{NeonStop, read};
pub use stan_model_neon::node::Node;
pub use stan_model_neon::text::Text;
