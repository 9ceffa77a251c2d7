//! Laws of the definitions: each is the contract of a function that does nothing.

ghost use Rattle.stan_patterns.specs.Laws.{PlainPatternsMatchThemselves, StarsStandForAnyBytes, AStarMatchesAll};

/// A pattern without `*` matches itself alone.
pub fn plain_patterns_match_themselves()
    ensures { PlainPatternsMatchThemselves }
{}

/// Between two texts without `*`, a `*` stands for whatever stands between them.
pub fn stars_stand_for_any_bytes()
    ensures { StarsStandForAnyBytes }
{}

/// `*` alone matches every text.
pub fn a_star_matches_all()
    ensures { AStarMatchesAll }
{}
