//! The parser of expressions as a function on places of the tokens (`specs`): what the code gives, and what the laws speak of.
#![tactic(auto)]
