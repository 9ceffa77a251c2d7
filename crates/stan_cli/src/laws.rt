//! Laws of the definitions: each is the contract of a function that does nothing.

ghost use Rattle.stan_cli.specs.Laws.{ChosenOnceInOrder, ChosenAreHeld, ChosenInAnyOrder};

/// Each chosen path stands once, in byte order.
pub fn chosen_once_in_order()
    ensures { ChosenOnceInOrder }
{}

/// The chosen paths are those that the folder holds and that a given path chooses.
pub fn chosen_are_held()
    ensures { ChosenAreHeld }
{}

/// The order in which paths are given, and that one is given twice, changes nothing.
pub fn chosen_in_any_order()
    ensures { ChosenInAnyOrder }
{}
