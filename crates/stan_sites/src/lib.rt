//! What stands anywhere in an expression: the functions that are called by name, and the bodies of closures.
#![tactic(auto)]

mod sites;

pub use sites::{HeldBody, Site, sites_of};
