//! Laws of the definitions: each is the contract of a function that does nothing.

ghost use Rattle.stan_base.specs.Laws.{LinesDoNotFall};

/// A byte stands on no earlier line than a byte before it.
pub fn lines_do_not_fall()
    ensures { LinesDoNotFall }
{}
