//! Laws of the definitions: each is the contract of a function that does nothing.

ghost use Rattle.stan_type.specs.Examples.{WorkedArrays, WorkedInts, WorkedKeeps, WorkedKinds, WorkedLeaves, WorkedLimits, WorkedStrings};

/// Worked unions of ints.
pub fn worked_ints()
    ensures { WorkedInts }
{}

/// Worked unions of strings.
pub fn worked_strings()
    ensures { WorkedStrings }
{}

/// Worked unions of arrays and shapes.
pub fn worked_arrays()
    ensures { WorkedArrays }
{}

/// Worked unions of the other kinds.
pub fn worked_kinds()
    ensures { WorkedKinds }
{}

/// Each limit at its edge, and one past it.
pub fn worked_limits()
    ensures { WorkedLimits }
{}

/// What tests keep.
pub fn worked_keeps()
    ensures { WorkedKeeps }
{}

/// What is left without them.
pub fn worked_leaves()
    ensures { WorkedLeaves }
{}
