//! Trees as text: `{a: 1, b: ["x", null]}`. A text is in `"`, a key stands as it is.

use stan_base::OutOfMemory;
use stan_neon::Node;
use std::alloc::Global;

/// A tree as text.
pub fn node(alloc: Global, tree: &Node) -> Result<String, OutOfMemory> {
    let mut text = String::new(alloc);
    put(&mut text, tree)?;
    Ok(text)
}

fn put(text: &mut String, tree: &Node) -> Result<(), OutOfMemory> {
    let alloc = *text.allocator();
    match tree {
        Node::Null => text.push_str("null")?,
        Node::Bool(true) => text.push_str("true")?,
        Node::Bool(false) => text.push_str("false")?,
        Node::Int(number) => text.push_str(format!(in alloc; "{number}")?.as_str())?,
        Node::Text(value) => {
            text.push_str("\"")?;
            text.push_str(value.as_str())?;
            text.push_str("\"")?;
        }
        Node::List(items) => {
            text.push_str("[")?;
            let mut separator = "";
            for item in items.as_slice() {
                text.push_str(separator)?;
                put(text, item)?;
                separator = ", ";
            }
            text.push_str("]")?;
        }
        Node::Map(pairs) => {
            text.push_str("{")?;
            let mut separator = "";
            for pair in pairs.as_slice() {
                text.push_str(separator)?;
                text.push_str(pair.0.as_str())?;
                text.push_str(": ")?;
                put(text, &pair.1)?;
                separator = ", ";
            }
            text.push_str("}")?;
        }
    }
    Ok(())
}
