//! Laws of the definitions: each is the contract of a function that does nothing.

ghost use Rattle.stan_analyst.specs.Laws.{FaultsInAnyOrder};

/// The order in which faults are found, and that one is found twice, changes nothing.
pub fn faults_in_any_order()
    ensures { FaultsInAnyOrder }
{}
