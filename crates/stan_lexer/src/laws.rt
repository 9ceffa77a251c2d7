//! Laws of the definitions: each is the contract of a function that does nothing.

ghost use Rattle.stan_lexer.specs.Laws.{EverySourceHasTokens, OneTokenList, TokensStandInOrder, LongestMarkIsRead, NoLongerNumberIsSpelled, RunsEndWhereTheTestFails};

/// Every source has tokens, whatever its bytes.
pub fn every_source_has_tokens()
    ensures { EverySourceHasTokens }
{}

/// A source has one list of tokens.
pub fn one_token_list()
    ensures { OneTokenList }
{}

/// Each token of a source stands within it, and ends before the later ones begin.
pub fn tokens_stand_in_order()
    ensures { TokensStandInOrder }
{}

/// No mark of the table that stands at a place is longer than the one that is read there.
pub fn longest_mark_is_read()
    ensures { LongestMarkIsRead }
{}

/// No number that is spelled at a place is longer than the one that is read there.
pub fn no_longer_number_is_spelled()
    ensures { NoLongerNumberIsSpelled }
{}

/// A run goes on while its places pass, and ends at the first one that fails, or at the end of the source.
pub fn runs_end_where_the_test_fails()
    ensures { RunsEndWhereTheTestFails }
{}
