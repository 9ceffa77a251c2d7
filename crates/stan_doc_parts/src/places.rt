//! What stands at a place of the tokens.

ghost use Rattle.std.specs.Prelude.{◌≡◌, ◌+◌, slice_get, IfOk};
ghost use Rattle.stan_model_doc.specs.Tokens.{kind_at};
ghost use Rattle.stan_places.specs.Gives.{Gives};
ghost use Rattle.stan_doc_parts.specs.Gives as spec;

use stan_model_doc::token::{DocKind, DocToken};
use stan_places::stop::Stop;

/// The token there, if one stands there.
pub fn token_at(tokens: &[DocToken], place: usize) -> Option<DocToken>
    ensures { result ≡ slice_get tokens.now place }
{
    match tokens.get(place) {
        None => None,
        Some(token) => Some(*token),
    }
}

/// The kind of the token there: `End` where none stands.
#[tactic(auto, unfolding(stan_model_doc::specs::Tokens::kind_at))]
pub fn kind_at(tokens: &[DocToken], place: usize) -> DocKind
    ensures { result ≡ kind_at tokens.now place }
{
    match tokens.get(place) {
        None => DocKind::End,
        Some(token) => token.kind,
    }
}

/// How many levels are left inside a production: `Absent` where none is left.
pub fn enter(levels: usize) -> Result<usize, Stop>
    ensures left { Gives (λ x. x) result (spec.enter levels) }
    ensures fewer { IfOk result (λ n. n + 1 ≡ levels) }
{
    if levels == 0 {
        return Err(Stop::Absent);
    }
    Ok(levels - 1)
}
