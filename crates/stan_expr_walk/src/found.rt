//! What is found in expressions and statements.

ghost use Rattle.std.specs.Prelude.{◌≡◌, ◌++◌, ◌∷◌, [], IfOk, map};
ghost use Rattle.stan_model_walk.specs.Findings.{placed};
ghost use Rattle.stan_expr_walk.specs.Found.{finding_of, found_of};

use stan_base::OutOfMemory;
use stan_model_grammar::token::Token;

/// A name in a declaration or elsewhere, by its token.
#[derive(Clone, Copy, Debug)]
pub enum Finding {
    /// A call of a function.
    Calls(Token),
    /// A call whose first argument is a plain text, and that text.
    Defines(Token, Token),
    /// A constant.
    Fetches(Token),
    /// A class, an interface or a trait.
    DeclaresClass(Token),
    DeclaresFunction(Token),
    DeclaresConstant(Token),
}

/// What is found, and where.
#[derive(Clone, Copy, Debug)]
pub struct Found {
    /// Whether a function, a closure, an arrow function or a class stands around it.
    pub inner: bool,
    pub finding: Finding,
}

/// Puts what is found behind the others.
pub fn push(inner: bool, finding: Finding, found: &mut Vec<Found>) -> Result<(), OutOfMemory>
    ensures { IfOk result (λ u. map found_of found.new.items ≡ map found_of found.old.items ++ placed inner (finding_of finding ∷ [])) }
{
    found.push(Found { inner, finding })?;
    Ok(())
}
