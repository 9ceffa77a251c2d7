//! Entries of `ignoreErrors`.

ghost use Rattle.std.specs.Prelude.{◌≡◌, IfOk, map};
ghost use Rattle.stan_model_config.specs.Said as model;
ghost use Rattle.stan_config_said.specs.Views.{entry_view};
ghost use Rattle.stan_config_said.specs.Parts.{parts_view};

use crate::lists::{paths_of, text_of};
use sqlite_items::Items;
use stan_base::OutOfMemory;
use stan_config_keys::names::entry_key;
use stan_config_keys::values::{count_of, path_of, truth_of};
use stan_model_config::keys::EntryKey;
use stan_model_neon::node::Node;
use stan_model_neon::text::Text;
use stan_settings::IgnoreEntry;
use std::alloc::Global;

/// An entry as its keys give it, with `path` for itself.
#[derive(Drop)]
pub(crate) struct EntryParts {
    message: String,
    path: Option<String>,
    paths: Vec<String>,
    count: Option<u32>,
    report_unmatched: Option<bool>,
}

fn no_parts(alloc: Global) -> EntryParts
    ensures { parts_view result ≡ model.no_parts }
{
    EntryParts {
        message: String::new(alloc),
        path: None,
        paths: Vec::new(alloc),
        count: None,
        report_unmatched: None,
    }
}

fn entry_with(
    alloc: Global,
    file: &str,
    key: Option<EntryKey>,
    node: Node,
    parts: EntryParts,
) -> Result<EntryParts, OutOfMemory>
    ensures { IfOk result (λ more. parts_view more ≡ model.entry_with file.now key node (parts_view parts)) }
{
    let mut parts = parts;
    match key {
        None => {}
        Some(EntryKey::Message) => {
            parts.message = match text_of(node) {
                Some(text) => text,
                None => String::new(alloc),
            };
        }
        Some(EntryKey::Path) => parts.path = path_of(alloc, file, &node)?,
        Some(EntryKey::Paths) => parts.paths = paths_of(alloc, file, &node)?,
        Some(EntryKey::Count) => parts.count = count_of(&node),
        Some(EntryKey::ReportUnmatched) => parts.report_unmatched = truth_of(&node),
    }
    Ok(parts)
}

#[tactic(auto, using(crate::proofs::Folds::parts_last))]
fn parts_of(
    alloc: Global,
    file: &str,
    pairs: Items<(Text, Node)>,
) -> Result<EntryParts, OutOfMemory>
    ensures { IfOk result (λ parts. parts_view parts ≡ model.parts_with file.now pairs model.no_parts) }
{
    let mut left = pairs;
    let mut parts = no_parts(alloc);
    while let Some(pair) = left.pop() {
        let (key, node) = pair;
        parts = entry_with(alloc, file, entry_key(key.as_str()), node, parts)?;
    }
    Ok(parts)
}

// Its `path` comes before its `paths`.
fn entry_from(parts: EntryParts) -> Result<IgnoreEntry, OutOfMemory>
    ensures { IfOk result (λ entry. entry_view entry ≡ model.entry_from (parts_view parts)) }
{
    let EntryParts {
        message,
        path,
        paths,
        count,
        report_unmatched,
    } = parts;
    let mut paths = paths;
    if let Some(path) = path {
        paths.insert(0, path)?;
    }
    Ok(IgnoreEntry {
        message,
        paths,
        count,
        report_unmatched,
    })
}

fn entry_of(alloc: Global, file: &str, node: Node) -> Result<IgnoreEntry, OutOfMemory>
    ensures { IfOk result (λ entry. entry_view entry ≡ model.entry_of file.now node) }
{
    match node {
        Node::Text(text) => Ok(IgnoreEntry {
            message: text.into_string(),
            paths: Vec::new(alloc),
            count: None,
            report_unmatched: None,
        }),
        Node::Map(pairs) => {
            let parts = parts_of(alloc, file, pairs)?;
            entry_from(parts)
        }
        Node::Null | Node::Bool(_) | Node::Int(_) | Node::List(_) => entry_from(no_parts(alloc)),
    }
}

fn item_entries(
    alloc: Global,
    file: &str,
    nodes: Items<Node>,
) -> Result<Vec<IgnoreEntry>, OutOfMemory>
    ensures { IfOk result (λ entries. map entry_view entries.items ≡ map (model.entry_of file.now) nodes) }
{
    let mut left = nodes;
    let mut entries = Vec::new(alloc);
    while let Some(node) = left.pop() {
        entries.push(entry_of(alloc, file, node)?)?;
    }
    entries.reverse();
    Ok(entries)
}

/// The entries of a list.
pub(crate) fn entries_of(
    alloc: Global,
    file: &str,
    node: Node,
) -> Result<Vec<IgnoreEntry>, OutOfMemory>
    ensures { IfOk result (λ entries. map entry_view entries.items ≡ model.entries_of file.now node) }
{
    match node {
        Node::List(nodes) => item_entries(alloc, file, nodes),
        Node::Null | Node::Bool(_) | Node::Int(_) | Node::Text(_) | Node::Map(_) => {
            Ok(Vec::new(alloc))
        }
    }
}
