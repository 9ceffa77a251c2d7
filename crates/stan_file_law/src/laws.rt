//! Laws of the definitions: each is the contract of a function that does nothing.

ghost use Rattle.stan_file_law.specs.Laws.{OneTreeOfProductions, OneStatementOfProductions, DepthIsThatOfProductions, StatementsAreAsDeep, OneTopOfTokens};

/// No two trees of files stand for the same productions, first tokens and bodies of closures.
pub fn one_tree_of_productions()
    ensures { OneTreeOfProductions }
{}

/// Nor do two statements.
pub fn one_statement_of_productions()
    ensures { OneStatementOfProductions }
{}

/// The depth of a file's tree is what its productions open.
pub fn depth_is_that_of_productions()
    ensures { DepthIsThatOfProductions }
{}

/// So is that of a statement.
pub fn statements_are_as_deep()
    ensures { StatementsAreAsDeep }
{}

/// The tokens from one place to another have at most one tree of a declaration or a statement, with what the bodies of closures hold.
pub fn one_top_of_tokens()
    ensures { OneTopOfTokens }
{}
