//! Why a descent that takes each part as it comes reads the longest: lemmas on PHPDoc that speak of its definitions alone.
#![tactic(auto)]

pub mod laws;
