//! What stands in a file, from left to right: which names are in force at each place of it, and which names its expressions and
//! declarations hold (`specs`).
#![tactic(auto)]
