//! Why an atom and its `[]` are read whole, though the `[]` behind `callable(): A` belong to `A`: lemmas on PHPDoc that speak of its definitions alone.
#![tactic(auto)]

pub mod laws;
