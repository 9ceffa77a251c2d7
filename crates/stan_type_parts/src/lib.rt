//! Types of PHP and PHPDoc: their parts, copies and comparisons.
#![tactic(auto)]

mod copy;
mod part;

pub use part::{Field, Key, Part, PhpType, StringForm};
