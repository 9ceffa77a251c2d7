//! Laws of the definitions: each is the contract of a function that does nothing.

ghost use Rattle.stan_select.specs.Laws.{SelectedInAnyOrder, EveryListingHasOneSelection};

/// The order of a listing, and that it has a file twice, changes nothing.
pub fn selected_in_any_order()
    ensures { SelectedInAnyOrder }
{}

/// Every listing has a selection under every configuration, and only one.
pub fn every_listing_has_one_selection()
    ensures { EveryListingHasOneSelection }
{}
