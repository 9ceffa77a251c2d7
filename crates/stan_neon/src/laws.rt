//! Laws of the definitions: each is the contract of a function that does nothing.

ghost use Rattle.stan_neon.specs.Laws.{EveryTextIsAnswered, OneTree, OneBadLine, TreeOrBad};

/// Every text has a tree, or is bad at a line, whatever its bytes.
pub fn every_text_is_answered()
    ensures { EveryTextIsAnswered }
{}

/// A text has one tree.
pub fn one_tree()
    ensures { OneTree }
{}

/// A text is bad at one line.
pub fn one_bad_line()
    ensures { OneBadLine }
{}

/// A text with a tree is bad at no line.
pub fn tree_or_bad()
    ensures { TreeOrBad }
{}
