//! Which declaration, statement, member or case a documentation comment belongs to.
#![tactic(auto)]

mod owners;

pub use owners::owners_of;
