//! Laws of atoms and their `[]`: each is the contract of a function that does nothing.

ghost use Rattle.stan_doc_suffixes.specs.Suffixes.{SuffixesAreRead};

/// Where each production is read or a longer one, an atom and its `[]` are read one level deeper.
pub fn suffixes_are_read()
    ensures { SuffixesAreRead }
{}
