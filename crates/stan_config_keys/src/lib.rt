//! What one configuration file says, or the key at which it is first at fault.
#![tactic(auto)]

mod entry;
mod faults;
mod free;
pub mod names;
mod places;
pub mod values;

pub use faults::file_fault;
