//! The grammar of files above expressions (`specs`): its productions as data, which tokens a tree spells, which tree is that of the
//! tokens, and the longest front that declarations and statements spell.
#![tactic(auto)]
