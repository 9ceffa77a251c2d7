//! Values without effect: any, but no key stands twice in a map.

ghost use Rattle.std.specs.Prelude.{◌≡◌, IfOk, [], map};
ghost use Rattle.stan_model_config.specs.Faults as model;

use crate::places::{behind, behind_position};
use stan_base::OutOfMemory;
use stan_config_paths::TextSet;
use stan_model_config::place::Place;
use stan_model_neon::node::Node;
use stan_model_neon::text::Text;
use std::alloc::Global;

/// The first key that stands twice in its map, at any depth.
#[cycle(free)]
pub fn free_fault(alloc: Global, node: &Node) -> Result<Option<Place>, OutOfMemory>
    ensures { IfOk result (λ fault. fault ≡ model.free_fault node.now) }
{
    match node {
        Node::List(nodes) => free_items_fault(alloc, nodes.as_slice()),
        Node::Map(pairs) => free_pairs_fault(alloc, pairs.as_slice()),
        Node::Null => Ok(None),
        Node::Bool(_) => Ok(None),
        Node::Int(_) => Ok(None),
        Node::Text(_) => Ok(None),
    }
}

#[cycle(free)]
fn free_items_fault(alloc: Global, nodes: &[Node]) -> Result<Option<Place>, OutOfMemory>
    ensures { IfOk result (λ fault. fault ≡ model.items_fault 0 (map model.free_fault nodes.now)) }
{
    for (at, node) in nodes.iter().enumerate() {
        if let Some(place) = free_fault(alloc, node)? {
            return Ok(Some(behind_position(alloc, at, place)?));
        }
    }
    Ok(None)
}

#[cycle(free)]
fn free_pairs_fault(alloc: Global, pairs: &[(Text, Node)]) -> Result<Option<Place>, OutOfMemory>
    ensures { IfOk result (λ fault. fault ≡ model.pairs_fault [] (map (λ pair. (pair.0, model.free_fault pair.1)) pairs.now)) }
{
    let mut keys = TextSet::new(alloc);
    for pair in pairs {
        let key = pair.0.as_str();
        if !keys.add(key)? {
            return Ok(Some(behind(alloc, key, Place::Here)?));
        }
        if let Some(place) = free_fault(alloc, &pair.1)? {
            return Ok(Some(behind(alloc, key, place)?));
        }
    }
    Ok(None)
}
