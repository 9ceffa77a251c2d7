//! Atoms of PHPDoc types: names, literals, shapes, ranges, callables and types in brackets, over what reads a type a level deeper.
#![tactic(auto)]

mod atoms;
mod fields;
mod lists;

pub use atoms::AtomPart;
