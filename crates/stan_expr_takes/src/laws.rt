//! Laws of the definitions: each is the contract of a function that does nothing.

ghost use Rattle.stan_expr_takes.specs.Laws.{TokensHaveATree, ExpressionsEndAtOnePlace};

/// Where a tree spells the tokens up to an end, they have a tree.
pub fn tokens_have_a_tree()
    ensures { TokensHaveATree }
{}

/// The expressions that begin at a place and are followed by an end token end at one place.
pub fn expressions_end_at_one_place()
    ensures { ExpressionsEndAtOnePlace }
{}
