//! Which productions trees of statements and files stand for (`specs`), and which tokens they spell.
#![tactic(auto)]
