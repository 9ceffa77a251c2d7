//! Laws of what is read.

ghost use Rattle.stan_parts_law.specs.Laws.{PartsAreThoseOfProductions};

/// Where a part is read with first tokens and what the bodies of closures hold, its productions are those that the parser on places of
/// `stan_stmt_rules` reads, for any reader of expressions that gives their trees.
pub fn parts_are_those_of_productions()
    ensures { PartsAreThoseOfProductions }
{}
