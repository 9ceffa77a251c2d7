//! Laws of the definitions: each is the contract of a function that does nothing.

ghost use Rattle.stan_config.specs.Laws.{EveryProjectIsAnswered, NoFileIsReadTwice, OneAnswer, TheRootComesFirst};

/// Every project's configuration means something or is refused, whatever its files hold.
pub fn every_project_is_answered()
    ensures { EveryProjectIsAnswered }
{}

/// A configuration has one meaning, or one refusal.
pub fn one_answer()
    ensures { OneAnswer }
{}

/// What the root is refused for decides.
pub fn the_root_comes_first()
    ensures { TheRootComesFirst }
{}

/// No file is read twice for a configuration, whatever its files include.
pub fn no_file_is_read_twice()
    ensures { NoFileIsReadTwice }
{}
