//! Reading parts of productions from the tokens: what stands at a place, parts that may stand, and parts that stand behind one another, each
//! once for all productions.
#![tactic(auto)]

pub mod depth;
pub mod parser;
pub mod words;
