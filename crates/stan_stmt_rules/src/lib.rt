//! The parser of files as a function on places of the tokens, and the look-ahead by which it chooses (`specs`): what the code gives, and
//! what the laws speak of.
#![tactic(auto)]
