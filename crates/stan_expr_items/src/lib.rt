//! What stands in lists: arguments, elements, parameters, captured variables and arms, over a function that
//! reads an expression a level deeper.
#![tactic(auto)]

pub mod calls;
pub mod grammar;
pub mod items;
pub mod lists;
