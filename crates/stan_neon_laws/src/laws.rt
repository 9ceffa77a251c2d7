//! Laws of the definitions: each is the contract of a function that does nothing.

ghost use Rattle.stan_neon_laws.specs.Laws.{DoubleQuotesKeepTexts, SingleQuotesKeepTexts, PlainTextsAreKept, LinesEnd};

/// A text that is written between `"`, with `\\`, `\"` and `\n`, is read back.
pub fn double_quotes_keep_texts()
    ensures { DoubleQuotesKeepTexts }
{}

/// A text that is written between `'`, with `''`, is read back.
pub fn single_quotes_keep_texts()
    ensures { SingleQuotesKeepTexts }
{}

/// A plain text that is no word and no number is read as itself.
pub fn plain_texts_are_kept()
    ensures { PlainTextsAreKept }
{}

/// A line ends with blanks, or with a blank and a remark.
pub fn lines_end()
    ensures { LinesEnd }
{}
