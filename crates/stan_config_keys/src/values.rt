//! What values mean.

ghost use Rattle.std.specs.Prelude.{◌≡◌, option_map, string_bytes, IfOk, is_some};
ghost use Rattle.stan_model_config.specs.Values as model;

use stan_base::OutOfMemory;
use stan_config_paths::resolved;
use stan_model_neon::node::Node;
use std::alloc::Global;

/// 0 to 9, or `max`, which is 9.
pub fn level_of(node: &Node) -> Option<u8>
    ensures { result ≡ model.level_of node.now }
{
    match node {
        Node::Int(number) => level_of_number(*number),
        Node::Text(text) => {
            if text.as_str() == "max" {
                Some(9)
            } else {
                None
            }
        }
        Node::Null | Node::Bool(_) | Node::List(_) | Node::Map(_) => None,
    }
}

fn level_of_number(number: i64) -> Option<u8>
    ensures { result ≡ model.level_of_number number }
{
    if 0 <= number && number <= 9 {
        Some(number as u8)
    } else {
        None
    }
}

/// 1 to 2^31-1.
pub fn count_of(node: &Node) -> Option<u32>
    ensures { result ≡ model.count_of node.now }
{
    match node {
        Node::Int(number) => count_of_number(*number),
        Node::Null | Node::Bool(_) | Node::Text(_) | Node::List(_) | Node::Map(_) => None,
    }
}

fn count_of_number(number: i64) -> Option<u32>
    ensures { result ≡ model.count_of_number number }
{
    if 1 <= number && number <= 2147483647 {
        Some(number as u32)
    } else {
        None
    }
}

pub fn truth_of(node: &Node) -> Option<bool>
    ensures { result ≡ model.truth_of node.now }
{
    match node {
        Node::Bool(truth) => Some(*truth),
        Node::Null | Node::Int(_) | Node::Text(_) | Node::List(_) | Node::Map(_) => None,
    }
}

/// Whether a value is a text.
pub fn is_text(node: &Node) -> bool
    ensures { result ≡ is_some (model.text_of node.now) }
{
    match node {
        Node::Text(_) => true,
        Node::Null | Node::Bool(_) | Node::Int(_) | Node::List(_) | Node::Map(_) => false,
    }
}

/// A text that is a path relative to the folder of a file.
pub fn path_of(alloc: Global, file: &str, node: &Node) -> Result<Option<String>, OutOfMemory>
    ensures { IfOk result (λ path. option_map string_bytes path ≡ model.path_of file.now node.now) }
{
    match node {
        Node::Text(text) => resolved(alloc, file, text.as_str()),
        Node::Null | Node::Bool(_) | Node::Int(_) | Node::List(_) | Node::Map(_) => Ok(None),
    }
}
