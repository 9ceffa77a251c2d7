//! Comments and what they belong to, both in the order of the file.

ghost use Rattle.std.specs.Prelude.{◌≡◌, ◌≤◌, IfOk, map, slice_get};
ghost use Rattle.stan_model_grammar.specs.declared.token.Token as model;
ghost use Rattle.stan_model_files.specs.Owners.{owner_of};
ghost use Rattle.stan_owners.specs.Order.{IsInOrder};

use stan_base::OutOfMemory;
use stan_model_grammar::token::Token;
use std::alloc::Global;

/// For each comment the first one of `owners` that begins behind it, and None where none does.
///
/// `owners` are the first tokens of all that comments can belong to. Each is looked at once.
pub fn owners_of(
    alloc: Global,
    comments: &[Token],
    owners: &[Token],
) -> Result<Vec<Option<Token>>, OutOfMemory>
    requires { IsInOrder comments.now }
    ensures exact { IfOk result (λ found. found.items ≡ map (owner_of owners.now) comments.now) }
{
    let mut found = Vec::new(alloc);
    let mut rest = owners;
    for comment in comments {
        rest = behind(rest, comment.start);
        found.push(rest.first().copied())?;
    }
    Ok(found)
}

// Those that are left, from the first one on that begins behind `start`.
fn behind(owners: &[Token], start: u32) -> &[Token]
    ensures passed { (comment : model.Token) → start ≤ comment.start → owner_of owners.now comment ≡ owner_of result.now comment }
    ensures first { (comment : model.Token) → comment.start ≡ start → owner_of owners.now comment ≡ slice_get result.now 0 }
{
    let mut rest = owners;
    while let [first, more @ ..] = rest {
        if start < first.start {
            return rest;
        }
        rest = more;
    }
    rest
}
