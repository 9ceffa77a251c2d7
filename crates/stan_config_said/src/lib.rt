//! What one configuration file says that is at no fault.
#![tactic(auto)]

mod content;
mod entry;
mod lists;

pub use content::{Content, Said, content_of};
