//! PHPDoc: which tags a comment has, which tokens their texts have, which types those spell, and how far a tag is read (`specs`).
//! Definitions and code share the kinds of tokens and the tables of words and marks.
#![tactic(auto)]

pub mod token;
