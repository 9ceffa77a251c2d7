//! Reading parts of productions from the tokens of a tag: what stands at a place, parts that may stand, and parts that stand behind one
//! another, each once for all productions.
#![tactic(auto)]

pub mod parser;
pub mod places;
pub mod words;
