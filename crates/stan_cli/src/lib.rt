//! The commands of the program, over any folder and any sink.
#![tactic(auto)]

mod analysis;
mod choice;
pub mod laws;
mod outcome;
mod raw;
mod refusal;
mod run;
mod sources;
mod words;
mod writing;

pub use outcome::{Outcome, Tally};
pub use refusal::{Refusal, Which};
pub use run::run_alone;
pub use words::WordsPart;
