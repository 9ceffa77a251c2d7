//! Laws of the definitions: each is the contract of a function that does nothing.

ghost use Rattle.stan_doc_lines.specs.Laws.{PlacesStay};

/// A place of a comment's text is that place of the comment.
pub fn places_stay()
    ensures { PlacesStay }
{}
