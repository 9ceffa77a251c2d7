//! Lemmas and laws on PHPDoc that speak of its definitions alone: each law is the contract of a function of `laws`.
#![tactic(auto)]

pub mod laws;
