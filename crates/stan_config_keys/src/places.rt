//! Places in values, as they are seen from outside.

ghost use Rattle.std.specs.Prelude.{◌≡◌, IfOk, decimal, map};
ghost use Rattle.stan_model_config.specs.Faults as model;

use stan_base::OutOfMemory;
use stan_model_config::place::Place;
use stan_model_neon::node::Node;
use stan_model_neon::text::Text;
use std::alloc::Global;

/// A place in the value that stands at a key.
pub fn behind(alloc: Global, key: &str, place: Place) -> Result<Place, OutOfMemory>
    ensures { IfOk result (λ whole. whole ≡ model.behind key.now place) }
{
    match place {
        Place::Here => {
            let text = String::from_str(alloc, key)?;
            Ok(Place::Below(Text::new(text)))
        }
        Place::Below(rest) => {
            let mut text = String::from_str(alloc, key)?;
            text.push_str(".")?;
            text.push_str(rest.as_str())?;
            Ok(Place::Below(Text::new(text)))
        }
    }
}

/// A place in the item that stands at a position.
pub fn behind_position(alloc: Global, at: usize, place: Place) -> Result<Place, OutOfMemory>
    ensures { IfOk result (λ whole. whole ≡ model.behind (decimal at) place) }
{
    let key = format!(in alloc; "{at}")?;
    behind(alloc, key.as_str(), place)
}

/// Whether a key stands in some pairs.
pub fn is_key_of(pairs: &[(Text, Node)], key: &str) -> bool
    ensures { result ≡ model.is_among (map (λ pair. pair.0) pairs.now) key.now }
{
    pairs.iter().any(|pair| pair.0.as_str() == key)
}
