//! Laws of the descent: each is the contract of a function that does nothing.

ghost use Rattle.stan_doc_descent.specs.Descent.{DescentIsSound, DescentReadsTheLongest, PlainProductionsAreFine};
ghost use Rattle.stan_doc_descent.specs.Alternatives.{EarlierAlternativesAreLonger, PartsAreRead, PlainProductionsAreRead, FieldsAreRead};

/// What the descent reads of a production is a tree of it, where what it reads of its parts is.
pub fn descent_is_sound()
    ensures { DescentIsSound }
{}

/// Where the descent reads each part of a production or a longer one, it reads the production or a longer one.
pub fn descent_reads_the_longest()
    ensures { DescentReadsTheLongest }
{}

/// All productions pass the test that the descent needs, but for those that are listed.
pub fn plain_productions_are_fine()
    ensures { PlainProductionsAreFine }
{}

/// Of two alternatives of a part that stand at a place the earlier one is longer, or both are as long and it counts before.
pub fn earlier_alternatives_are_longer()
    ensures { EarlierAlternativesAreLonger }
{}

/// Where each production is read or a longer one, each part is.
pub fn parts_are_read()
    ensures { PartsAreRead }
{}

/// Then each production that passes the test is, one level deeper.
pub fn plain_productions_are_read()
    ensures { PlainProductionsAreRead }
{}

/// So are fields, where a comma may stand behind the last one.
pub fn fields_are_read()
    ensures { FieldsAreRead }
{}
