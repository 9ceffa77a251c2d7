//! The configuration of a project: `load` reads it.
#![tactic(auto)]

mod file;
mod join;
pub mod laws;
mod project;
mod read_files;
mod stop;
mod walk;

pub use project::load;
pub use stan_settings::{Config, IgnoreEntry, Words};
pub use stop::ConfigStop;
