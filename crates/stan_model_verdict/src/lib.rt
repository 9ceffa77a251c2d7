//! The rules: which faults the facts of a file give over a table (`specs`).
#![tactic(auto)]
