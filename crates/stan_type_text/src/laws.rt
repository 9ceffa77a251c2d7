//! Laws of the definitions: each is the contract of a function that does nothing.

ghost use Rattle.stan_type_text.specs.Scalars.{ScalarTextsDiffer};

/// Texts of different parts for ints, floats, strings, truth values and `null` differ. That holds of parts alone: the literal `a'|'b`
/// has the text of the union of `'a'` and `'b'`.
pub fn scalar_texts_differ()
    ensures { ScalarTextsDiffer }
{}
