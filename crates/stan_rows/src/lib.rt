//! Rows of text: what is read of a row's text is compared with what the row wants. A program that reads something is a table of
//! folders, each with what is read there, and a `main` that plays them.
#![tactic(auto)]

mod compare;
mod lines;
mod run;
mod signs;

pub use compare::{Reading, difference};
pub use lines::rows;
pub use run::play;
pub use signs::{number, parts, plain, text_of, words};
