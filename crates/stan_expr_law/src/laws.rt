//! Laws of the definitions: each is the contract of a function that does nothing.

ghost use Rattle.stan_expr_law.specs.Laws.{TreesSpellTheirSize, TreesStandInTheTokens, OneTreeOfTokens, EndsGoOnWithNothing, CalledNamesAreSites};

/// An expression's tree spells as many tokens as its size says.
pub fn trees_spell_their_size()
    ensures { TreesSpellTheirSize }
{}

/// An expression's tree spells at least one token, and each of them stands in the list.
pub fn trees_stand_in_the_tokens()
    ensures { TreesStandInTheTokens }
{}

/// The tokens from one place to another have at most one tree.
pub fn one_tree_of_tokens()
    ensures { OneTreeOfTokens }
{}

/// A token that ends an expression goes on with none, whatever stands behind it.
pub fn ends_go_on_with_nothing()
    ensures { EndsGoOnWithNothing }
{}

/// The sites of an expression are all names that are called in it and the held bodies, in order.
pub fn called_names_are_sites()
    ensures { CalledNamesAreSites }
{}
