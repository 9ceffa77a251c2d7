//! What documentation comments can belong to in the tree of a file.
#![tactic(auto)]

mod owners;

pub use owners::file_owners;
