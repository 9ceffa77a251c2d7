//! Types of PHP and PHPDoc in normal form.
//!
//! A `PhpType` is always the normal form of some parts, at every depth; its `parts` stand by kind number and then by their bytes.
#![tactic(auto)]

mod equal;
pub mod laws;
mod unite;

pub use equal::{is_equal, order};
pub use stan_tri::Tri;
pub use stan_type_filters::{Filter, keep, without};
pub use stan_type_parts::{Field, Key, Part, PhpType, StringForm};
pub use unite::{one, union};
