//! Cases of whole runs, and the text that they are written in.
#![tactic(auto)]

mod case;
mod reading;

pub use case::{Case, Files, Place, SinkForm, Unread, Wanted, Why};
pub use reading::read_cases;
