//! Laws of the definitions: each is the contract of a function that does nothing.

ghost use Rattle.stan_stmt_law.specs.Laws.{OneForestOfTokens, TokensHaveAForest, NoTopIsAFront, OneFileOfTokens, TokensHaveALongestFront, OneLongestFront};

/// The tokens from one place to another have at most one tree.
pub fn one_forest_of_tokens()
    ensures { OneForestOfTokens }
{}

/// Where a declaration or a statement spells tokens, and no token follows that goes on with it, they have a tree.
pub fn tokens_have_a_forest()
    ensures { TokensHaveAForest }
{}

/// What a declaration or a statement spells is no front of what another one spells, unless `else`, `elseif`, `catch` or `finally` follows.
pub fn no_top_is_a_front()
    ensures { NoTopIsAFront }
{}

/// All the tokens are read in at most one way.
pub fn one_file_of_tokens()
    ensures { OneFileOfTokens }
{}

/// Every list of tokens has a longest front of declarations and statements.
pub fn tokens_have_a_longest_front()
    ensures { TokensHaveALongestFront }
{}

/// A list of tokens has one longest front alone.
pub fn one_longest_front()
    ensures { OneLongestFront }
{}
