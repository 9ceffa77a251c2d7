//! Lists of paths.

ghost use Rattle.std.specs.Prelude.{◌≡◌, IfOk, map, string_bytes, option_map};
ghost use Rattle.std.specs.List.{filter_map};
ghost use Rattle.stan_model_config.specs.Said as model;
ghost use Rattle.stan_model_config.specs.Values as values;

use stan_base::OutOfMemory;
use stan_config_keys::values::path_of;
use stan_model_neon::node::Node;
use std::alloc::Global;

fn item_paths(alloc: Global, file: &str, nodes: &[Node]) -> Result<Vec<String>, OutOfMemory>
    ensures { IfOk result (λ paths. map string_bytes paths.items ≡ filter_map (values.path_of file.now) nodes.now) }
{
    let mut paths = Vec::new(alloc);
    for node in nodes {
        if let Some(path) = path_of(alloc, file, node)? {
            paths.push(path)?;
        }
    }
    Ok(paths)
}

/// The paths of a list.
pub fn paths_of(alloc: Global, file: &str, node: &Node) -> Result<Vec<String>, OutOfMemory>
    ensures { IfOk result (λ paths. map string_bytes paths.items ≡ model.paths_of file.now node.now) }
{
    match node {
        Node::List(nodes) => item_paths(alloc, file, nodes.as_slice()),
        Node::Null | Node::Bool(_) | Node::Int(_) | Node::Text(_) | Node::Map(_) => {
            Ok(Vec::new(alloc))
        }
    }
}

/// The text of a value, if it is one. It takes no memory.
pub fn text_of(node: Node) -> Option<String>
    ensures { option_map string_bytes result ≡ values.text_of node }
{
    match node {
        Node::Text(text) => Some(text.into_string()),
        Node::Null | Node::Bool(_) | Node::Int(_) | Node::List(_) | Node::Map(_) => None,
    }
}
