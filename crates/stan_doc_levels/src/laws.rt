//! Laws of the reading of all levels: each is the contract of a function that does nothing.

ghost use Rattle.stan_doc_levels.specs.Levels.{AllLevelsAreRead};

/// All productions but tags are read at each level: the longest, and of the trees of the same tokens the one that counts before the others.
pub fn all_levels_are_read()
    ensures { AllLevelsAreRead }
{}
