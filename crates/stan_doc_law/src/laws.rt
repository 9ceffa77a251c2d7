//! Laws of the definitions: each is the contract of a function that does nothing.

ghost use Rattle.stan_doc_law.specs.Laws.{EveryTagHasTokens, OneTokenList, TokensStandInOrder, TreesSpellTheirSize, OneLongestFront, OneReading};

/// Every tag has tokens, whatever its bytes.
pub fn every_tag_has_tokens()
    ensures { EveryTagHasTokens }
{}

/// A tag has one list of tokens.
pub fn one_token_list()
    ensures { OneTokenList }
{}

/// Each token of a text has a byte, stands within the text, and ends before the later ones begin.
pub fn tokens_stand_in_order()
    ensures { TokensStandInOrder }
{}

/// A tree spells as many tokens as its size says.
pub fn trees_spell_their_size()
    ensures { TreesSpellTheirSize }
{}

/// Tokens have one longest front and one tree of it.
pub fn one_longest_front()
    ensures { OneLongestFront }
{}

/// A comment has one reading.
pub fn one_reading()
    ensures { OneReading }
{}
