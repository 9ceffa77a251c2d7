//! What stands alone, a function a production.
#![tactic(auto)]

mod forms;

pub use forms::form;
