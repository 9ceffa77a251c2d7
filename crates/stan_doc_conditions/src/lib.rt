//! How a condition's branches are parted: lemmas on PHPDoc that speak of its definitions alone.
#![tactic(auto)]

pub mod laws;
