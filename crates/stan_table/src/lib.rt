//! What files declare, and the index that answers look-ups by name.
#![tactic(auto)]

mod ask;
mod exported;
mod index;
mod source;

pub use ask::Ask;
pub use exported::{ClassNode, ConstantNode, Exported, FunctionNode};
pub use index::Index;
pub use source::Source;
