//! What the parser of expressions reads is a greedy tree, and each greedy tree is read. Lemmas alone, no code of the program.
#![tactic(auto)]
