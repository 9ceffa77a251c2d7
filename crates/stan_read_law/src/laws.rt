//! Laws of what is read.

ghost use Rattle.stan_read_law.specs.Laws.{ReadIsTree, TreeIsRead, OneTreeOfTokens, ReadIsFile, FileIsRead, ReadIsLongestFront};

/// What the parser on places reads of a declaration or a statement is a tree of files, unless `else`, `elseif`, `catch` or `finally` follows.
pub fn read_is_tree()
    ensures { ReadIsTree }
{}

/// Each such tree of files is read, with room for 1406 productions in one another.
pub fn tree_is_read()
    ensures { TreeIsRead }
{}

/// All the tokens have at most one tree of files.
pub fn one_tree_of_tokens()
    ensures { OneTreeOfTokens }
{}

/// Where declarations and statements are read one after the other up to the end of the tokens, they are the tree of the tokens.
pub fn read_is_file()
    ensures { ReadIsFile }
{}

/// The tree of all the tokens is read, with as much room.
pub fn file_is_read()
    ensures { FileIsRead }
{}

/// Where nothing more is read but what `else`, `elseif`, `catch` or `finally` follows, what was read is the longest front of the tokens.
pub fn read_is_longest_front()
    ensures { ReadIsLongestFront }
{}
