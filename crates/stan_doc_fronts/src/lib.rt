//! Each tag of a PHPDoc has a longest front or none: a slow reading that tries all fronts, the longest first.
#![tactic(auto)]

pub mod laws;
