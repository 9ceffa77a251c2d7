//! Laws of the trees of statements and files: productions have one tree, a tree is as deep as its productions, tokens have one tree.
#![tactic(auto)]

pub mod laws;
