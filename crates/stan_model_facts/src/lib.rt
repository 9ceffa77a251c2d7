//! What of a file the rules speak of (`specs`).
#![tactic(auto)]
