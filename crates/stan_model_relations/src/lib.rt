//! What the tree of a file declares (`specs`).
#![tactic(auto)]
