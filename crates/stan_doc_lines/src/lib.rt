//! The text of a PHPDoc comment and where its tags stand, exactly as `stan_model_doc` defines them (`specs/Comment.antt`).
#![tactic(auto)]

pub mod laws;
mod marks;
pub mod runs;
mod spans;
mod starts;
mod text;

pub use spans::tag_spans;
pub use text::doc_text;
