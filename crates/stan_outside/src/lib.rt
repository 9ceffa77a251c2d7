//! What the product reads and writes, as traits: a folder and a sink, over memory and over the real thing.
#![tactic(auto)]

mod calls;
mod fail;
mod folder_tree;
mod memory_sink;
mod memory_tree;
mod paths;
mod sink;
mod stream_sink;
mod tree;

pub use fail::{Fail, Failed};
pub use folder_tree::FolderTree;
pub use memory_sink::MemorySink;
pub use memory_tree::MemoryTree;
pub use paths::are_files;
pub use sink::Sink;
pub use stream_sink::StreamSink;
pub use tree::Tree;
