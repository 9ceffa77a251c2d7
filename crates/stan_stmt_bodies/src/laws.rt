//! What follows from the definitions: the contract of a function that does nothing.

ghost use Rattle.stan_stmt_bodies.specs.Laws.{BodiesAreReadByTheSame};

/// What is read of an expression reads the bodies of its closures by itself, with less room: the number that bounds how often they stand
/// in one another is never the reason that one is not read.
pub fn bodies_are_read_by_the_same()
    ensures { BodiesAreReadByTheSame }
{}
