//! Trees of PHPDoc types and tags: one variant a production, with its parts in order.
#![tactic(auto)]

mod tag;
mod written;

pub use tag::{DocTag, DocTree, Parameter, TagForm};
pub use written::{Atom, Field, Intersection, Key, Unary, Written};
