//! The normal form of parts, and the union of types.
#![tactic(auto)]

mod form;
mod kinds;
mod meetings;
mod numbers;
mod place;
mod strings;
mod tables;

pub use form::{never, normal};
pub use kinds::is_of;
pub use meetings::is_literal_text;
pub use tables::has_required;
