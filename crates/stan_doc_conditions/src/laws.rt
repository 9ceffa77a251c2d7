//! Laws of conditions: each is the contract of a function that does nothing.

ghost use Rattle.stan_doc_conditions.specs.Brackets.{BracketsEndOnce};
ghost use Rattle.stan_doc_conditions.specs.Conditions.{ConditionsAreRead, ConditionsAreSound};

/// Symbols behind an opening bracket that end with the closing one have one end.
pub fn brackets_end_once()
    ensures { BracketsEndOnce }
{}

/// Where each production is read of each text, a condition is read one level deeper, parted at the last `:` that can part it.
pub fn conditions_are_read()
    ensures { ConditionsAreRead }
{}

/// What is read so is a condition.
pub fn conditions_are_sound()
    ensures { ConditionsAreSound }
{}
