//! What a file is read as: its tree, or why it has none (`specs`).
#![tactic(auto)]
