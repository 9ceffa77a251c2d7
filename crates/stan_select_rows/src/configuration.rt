//! Configurations of rows: NEON with the keys of a project's `parameters`.

use stan_base::OutOfMemory;
use stan_neon::{NeonStop, Node, read};
use stan_settings::Config;
use std::alloc::Global;

/// The configuration that a text says: lists of texts at the keys `paths`, `excludePaths`, `scanFiles` and `scanDirectories`.
pub fn configuration(alloc: Global, text: &str) -> Result<Config, OutOfMemory> {
    let tree = match read(alloc, text.as_bytes()) {
        Ok(tree) => tree,
        Err(NeonStop::Bad { line: _ }) => Node::Null,
        Err(NeonStop::OutOfMemory) => return Err(OutOfMemory),
    };
    let paths = texts_at(alloc, &tree, "paths")?;
    let exclude = texts_at(alloc, &tree, "excludePaths")?;
    let scan_files = texts_at(alloc, &tree, "scanFiles")?;
    let scan_directories = texts_at(alloc, &tree, "scanDirectories")?;
    Ok(Config {
        level: 0,
        paths,
        exclude,
        scan_files,
        scan_directories,
        ignore: Vec::new(alloc),
        report_unmatched: true,
    })
}

fn texts_at(alloc: Global, tree: &Node, key: &str) -> Result<Vec<String>, OutOfMemory> {
    let mut texts = Vec::new(alloc);
    if let Node::Map(pairs) = tree {
        for pair in pairs.as_slice() {
            if pair.0.as_str() == key {
                put_texts(&mut texts, &pair.1)?;
            }
        }
    }
    Ok(texts)
}

fn put_texts(texts: &mut Vec<String>, value: &Node) -> Result<(), OutOfMemory> {
    let alloc = *texts.allocator();
    if let Node::List(items) = value {
        for item in items.as_slice() {
            if let Node::Text(text) = item {
                texts.push(String::from_str(alloc, text.as_str())?)?;
            }
        }
    }
    Ok(())
}
