//! What files declare, and what a table of declarations answers (`specs`).
#![tactic(auto)]
