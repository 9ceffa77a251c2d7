//! Where a file is first at fault.

ghost use Rattle.std.specs.Prelude.{◌≡◌, IfOk, [], map};
ghost use Rattle.stan_model_config.specs.Faults as model;

use crate::entry::{entries_fault, paths_fault, unless};
use crate::free::free_fault;
use crate::names::{parameter, top_key};
use crate::places::{behind, is_key_of};
use crate::values::{level_of, truth_of};
use stan_base::OutOfMemory;
use stan_model_config::keys::{Parameter, TopKey};
use stan_model_config::place::Place;
use stan_model_neon::node::Node;
use stan_model_neon::text::Text;
use std::alloc::Global;

fn parameter_fault(
    alloc: Global,
    file: &str,
    key: Option<Parameter>,
    node: &Node,
) -> Result<Option<Place>, OutOfMemory>
    ensures { IfOk result (λ fault. fault ≡ model.parameter_fault file.now key node.now) }
{
    match key {
        None => Ok(Some(Place::Here)),
        Some(Parameter::Level) => Ok(unless(level_of(node).is_some())),
        Some(Parameter::Paths) => paths_fault(alloc, file, node),
        Some(Parameter::ExcludePaths) => paths_fault(alloc, file, node),
        Some(Parameter::ScanFiles) => paths_fault(alloc, file, node),
        Some(Parameter::ScanDirectories) => paths_fault(alloc, file, node),
        Some(Parameter::IgnoreErrors) => entries_fault(alloc, file, node),
        Some(Parameter::ReportUnmatched) => Ok(unless(truth_of(node).is_some())),
        Some(Parameter::WithoutEffect) => free_fault(alloc, node),
    }
}

fn parameter_pairs_fault(
    alloc: Global,
    file: &str,
    pairs: &[(Text, Node)],
) -> Result<Option<Place>, OutOfMemory>
    ensures { IfOk result (λ fault. fault ≡ model.pairs_fault [] (map (model.parameter_pair_fault file.now) pairs.now)) }
{
    for (at, pair) in pairs.iter().enumerate() {
        let key = pair.0.as_str();
        if is_key_of(&pairs[..at], key) {
            return Ok(Some(behind(alloc, key, Place::Here)?));
        }
        if let Some(place) = parameter_fault(alloc, file, parameter(key), &pair.1)? {
            return Ok(Some(behind(alloc, key, place)?));
        }
    }
    Ok(None)
}

fn parameters_fault(alloc: Global, file: &str, node: &Node) -> Result<Option<Place>, OutOfMemory>
    ensures { IfOk result (λ fault. fault ≡ model.parameters_fault file.now node.now) }
{
    match node {
        Node::Map(pairs) => parameter_pairs_fault(alloc, file, pairs.as_slice()),
        Node::Null | Node::Bool(_) | Node::Int(_) | Node::Text(_) | Node::List(_) => {
            Ok(Some(Place::Here))
        }
    }
}

fn top_fault(
    alloc: Global,
    file: &str,
    key: Option<TopKey>,
    node: &Node,
) -> Result<Option<Place>, OutOfMemory>
    ensures { IfOk result (λ fault. fault ≡ model.top_fault file.now key node.now) }
{
    match key {
        None => Ok(Some(Place::Here)),
        Some(TopKey::Includes) => paths_fault(alloc, file, node),
        Some(TopKey::Parameters) => parameters_fault(alloc, file, node),
    }
}

fn top_pairs_fault(
    alloc: Global,
    file: &str,
    pairs: &[(Text, Node)],
) -> Result<Option<Place>, OutOfMemory>
    ensures { IfOk result (λ fault. fault ≡ model.pairs_fault [] (map (model.top_pair_fault file.now) pairs.now)) }
{
    for (at, pair) in pairs.iter().enumerate() {
        let key = pair.0.as_str();
        if is_key_of(&pairs[..at], key) {
            return Ok(Some(behind(alloc, key, Place::Here)?));
        }
        if let Some(place) = top_fault(alloc, file, top_key(key), &pair.1)? {
            return Ok(Some(behind(alloc, key, place)?));
        }
    }
    Ok(None)
}

/// Where a file with this tree is first at fault, in the order of its lines: at a key that is unknown, stands twice in its map
/// or has a value of another form, or at a path that leads outside.
pub fn file_fault(alloc: Global, file: &str, node: &Node) -> Result<Option<Place>, OutOfMemory>
    ensures { IfOk result (λ fault. fault ≡ model.file_fault file.now node.now) }
{
    match node {
        Node::Map(pairs) => top_pairs_fault(alloc, file, pairs.as_slice()),
        Node::Null | Node::Bool(_) | Node::Int(_) | Node::Text(_) | Node::List(_) => {
            Ok(Some(Place::Here))
        }
    }
}
