//! Laws of fronts: each is the contract of a function that does nothing.

ghost use Rattle.stan_doc_fronts.specs.Fronts.{EveryTagHasAReading};
ghost use Rattle.stan_doc_fronts.specs.Readings.{EveryCommentHasAReading};

/// The tokens of each tag have a longest front, which the slow reading gives, or no front is in the grammar, and it gives nothing.
pub fn every_tag_has_a_reading()
    ensures { EveryTagHasAReading }
{}

/// Every comment has a reading, and it has no other: its known tags in order, each with its longest front or as a bad tag.
pub fn every_comment_has_a_reading()
    ensures { EveryCommentHasAReading }
{}
