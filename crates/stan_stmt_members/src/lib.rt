//! Members of classes, interfaces and traits, and the parameters of functions and methods.
#![tactic(auto)]

pub mod bodies;
pub mod fields;
pub mod methods;
pub mod modified;
pub mod parameter_lists;
