//! Entries of `ignoreErrors`: where one is at fault.

ghost use Rattle.std.specs.Prelude.{◌≡◌, IfOk, [], map, Bool};
ghost use Rattle.std.specs.List.{list_any};
ghost use Rattle.stan_model_config.specs.Faults as model;
ghost use Rattle.stan_model_config.specs.Values as values;
ghost use Rattle.stan_config_keys.specs.Tests.{fault_unless, has_message};

use crate::names::entry_key;
use crate::places::{behind, behind_position, is_key_of};
use crate::values::{count_of, is_text, path_of, truth_of};
use stan_base::OutOfMemory;
use stan_model_config::keys::EntryKey;
use stan_model_config::place::Place;
use stan_model_neon::node::Node;
use stan_model_neon::text::Text;
use std::alloc::Global;

/// The value itself, unless it means something.
pub fn unless(means: bool) -> Option<Place>
    ensures { result ≡ fault_unless means }
{
    if means { None } else { Some(Place::Here) }
}

fn path_items_fault(alloc: Global, file: &str, nodes: &[Node]) -> Result<Option<Place>, OutOfMemory>
    ensures { IfOk result (λ fault. fault ≡ model.items_fault 0 (map (λ node. model.unless_some (values.path_of file.now node)) nodes.now)) }
{
    for (at, node) in nodes.iter().enumerate() {
        if path_of(alloc, file, node)?.is_none() {
            return Ok(Some(behind_position(alloc, at, Place::Here)?));
        }
    }
    Ok(None)
}

/// A list of paths.
pub fn paths_fault(alloc: Global, file: &str, node: &Node) -> Result<Option<Place>, OutOfMemory>
    ensures { IfOk result (λ fault. fault ≡ model.paths_fault file.now node.now) }
{
    match node {
        Node::List(nodes) => path_items_fault(alloc, file, nodes.as_slice()),
        Node::Null | Node::Bool(_) | Node::Int(_) | Node::Text(_) | Node::Map(_) => {
            Ok(Some(Place::Here))
        }
    }
}

// A list of one path at least.
fn some_paths_fault(alloc: Global, file: &str, node: &Node) -> Result<Option<Place>, OutOfMemory>
    ensures { IfOk result (λ fault. fault ≡ model.some_paths_fault file.now node.now) }
{
    match node {
        Node::List(nodes) => {
            if nodes.is_empty() {
                return Ok(Some(Place::Here));
            }
            path_items_fault(alloc, file, nodes.as_slice())
        }
        Node::Null | Node::Bool(_) | Node::Int(_) | Node::Text(_) | Node::Map(_) => {
            Ok(Some(Place::Here))
        }
    }
}

fn entry_key_fault(
    alloc: Global,
    file: &str,
    key: Option<EntryKey>,
    node: &Node,
) -> Result<Option<Place>, OutOfMemory>
    ensures { IfOk result (λ fault. fault ≡ model.entry_key_fault file.now key node.now) }
{
    match key {
        None => Ok(Some(Place::Here)),
        Some(EntryKey::Message) => Ok(unless(is_text(node))),
        Some(EntryKey::Path) => Ok(unless(path_of(alloc, file, node)?.is_some())),
        Some(EntryKey::Paths) => some_paths_fault(alloc, file, node),
        Some(EntryKey::Count) => Ok(unless(count_of(node).is_some())),
        Some(EntryKey::ReportUnmatched) => Ok(unless(truth_of(node).is_some())),
    }
}

fn entry_pairs_fault(
    alloc: Global,
    file: &str,
    pairs: &[(Text, Node)],
) -> Result<Option<Place>, OutOfMemory>
    ensures { IfOk result (λ fault. fault ≡ model.pairs_fault [] (map (model.entry_pair_fault file.now) pairs.now)) }
{
    for (at, pair) in pairs.iter().enumerate() {
        let key = pair.0.as_str();
        if is_key_of(&pairs[..at], key) {
            return Ok(Some(behind(alloc, key, Place::Here)?));
        }
        if let Some(place) = entry_key_fault(alloc, file, entry_key(key), &pair.1)? {
            return Ok(Some(behind(alloc, key, place)?));
        }
    }
    Ok(None)
}

fn has_message(pairs: &[(Text, Node)]) -> bool
    ensures { result ≡ has_message pairs.now }
{
    pairs.iter().any(|pair| pair.0.as_str() == "message")
}

fn entry_fault(alloc: Global, file: &str, node: &Node) -> Result<Option<Place>, OutOfMemory>
    ensures { IfOk result (λ fault. fault ≡ model.entry_fault file.now node.now) }
{
    match node {
        Node::Text(_) => Ok(None),
        Node::Map(pairs) => {
            if let Some(place) = entry_pairs_fault(alloc, file, pairs.as_slice())? {
                return Ok(Some(place));
            }
            Ok(unless(has_message(pairs.as_slice())))
        }
        Node::Null | Node::Bool(_) | Node::Int(_) | Node::List(_) => Ok(Some(Place::Here)),
    }
}

fn entry_items_fault(
    alloc: Global,
    file: &str,
    nodes: &[Node],
) -> Result<Option<Place>, OutOfMemory>
    ensures { IfOk result (λ fault. fault ≡ model.items_fault 0 (map (model.entry_fault file.now) nodes.now)) }
{
    for (at, node) in nodes.iter().enumerate() {
        if let Some(place) = entry_fault(alloc, file, node)? {
            return Ok(Some(behind_position(alloc, at, place)?));
        }
    }
    Ok(None)
}

/// The list of entries.
pub fn entries_fault(alloc: Global, file: &str, node: &Node) -> Result<Option<Place>, OutOfMemory>
    ensures { IfOk result (λ fault. fault ≡ model.entries_fault file.now node.now) }
{
    match node {
        Node::List(nodes) => entry_items_fault(alloc, file, nodes.as_slice()),
        Node::Null | Node::Bool(_) | Node::Int(_) | Node::Text(_) | Node::Map(_) => {
            Ok(Some(Place::Here))
        }
    }
}
