//! What a file says, and which files it includes.

ghost use Rattle.std.specs.Prelude.{◌≡◌, IfOk};
ghost use Rattle.stan_model_config.specs.Said as model;
ghost use Rattle.stan_config_said.specs.Views.{said_view, content_view};

use crate::entry::entries_of;
use crate::lists::paths_of;
use sqlite_items::Items;
use stan_base::OutOfMemory;
use stan_config_keys::names::{parameter, top_key};
use stan_config_keys::values::{level_of, truth_of};
use stan_model_config::keys::{Parameter, TopKey};
use stan_model_neon::node::Node;
use stan_model_neon::text::Text;
use stan_settings::IgnoreEntry;
use std::alloc::Global;

/// What a file says, or several files.
#[derive(Drop)]
pub struct Said {
    /// 0 to 9.
    pub level: Option<u8>,
    pub paths: Vec<String>,
    pub exclude: Vec<String>,
    pub scan_files: Vec<String>,
    pub scan_directories: Vec<String>,
    pub ignore: Vec<IgnoreEntry>,
    pub report_unmatched: Option<bool>,
}

impl Said {
    ghost use Rattle.stan_config_said.specs.Views.{said_view};

    pub fn nothing(alloc: Global) -> Said
        ensures { said_view result ≡ model.nothing }
    {
        Said {
            level: None,
            paths: Vec::new(alloc),
            exclude: Vec::new(alloc),
            scan_files: Vec::new(alloc),
            scan_directories: Vec::new(alloc),
            ignore: Vec::new(alloc),
            report_unmatched: None,
        }
    }
}

/// What one file says, and which files it includes.
#[derive(Drop)]
pub struct Content {
    pub includes: Vec<String>,
    pub said: Said,
}

fn with(
    alloc: Global,
    file: &str,
    key: Option<Parameter>,
    node: Node,
    said: Said,
) -> Result<Said, OutOfMemory>
    ensures { IfOk result (λ more. said_view more ≡ model.with file.now key node (said_view said)) }
{
    let mut said = said;
    match key {
        None => {}
        Some(Parameter::Level) => said.level = level_of(&node),
        Some(Parameter::Paths) => said.paths = paths_of(alloc, file, &node)?,
        Some(Parameter::ExcludePaths) => said.exclude = paths_of(alloc, file, &node)?,
        Some(Parameter::ScanFiles) => said.scan_files = paths_of(alloc, file, &node)?,
        Some(Parameter::ScanDirectories) => said.scan_directories = paths_of(alloc, file, &node)?,
        Some(Parameter::IgnoreErrors) => said.ignore = entries_of(alloc, file, node)?,
        Some(Parameter::ReportUnmatched) => said.report_unmatched = truth_of(&node),
        Some(Parameter::WithoutEffect) => {}
    }
    Ok(said)
}

#[tactic(auto, using(crate::proofs::Folds::said_last))]
fn said_of(alloc: Global, file: &str, pairs: Items<(Text, Node)>) -> Result<Said, OutOfMemory>
    ensures { IfOk result (λ said. said_view said ≡ model.said_with file.now pairs model.nothing) }
{
    let mut left = pairs;
    let mut said = Said::nothing(alloc);
    while let Some(pair) = left.pop() {
        let (key, node) = pair;
        said = with(alloc, file, parameter(key.as_str()), node, said)?;
    }
    Ok(said)
}

fn parameters_of(alloc: Global, file: &str, node: Node) -> Result<Said, OutOfMemory>
    ensures { IfOk result (λ said. said_view said ≡ model.parameters_of file.now node) }
{
    match node {
        Node::Map(pairs) => said_of(alloc, file, pairs),
        Node::Null | Node::Bool(_) | Node::Int(_) | Node::Text(_) | Node::List(_) => {
            Ok(Said::nothing(alloc))
        }
    }
}

fn content_with(
    alloc: Global,
    file: &str,
    key: Option<TopKey>,
    node: Node,
    content: Content,
) -> Result<Content, OutOfMemory>
    ensures { IfOk result (λ more. content_view more ≡ model.content_with file.now key node (content_view content)) }
{
    let mut content = content;
    match key {
        None => {}
        Some(TopKey::Includes) => content.includes = paths_of(alloc, file, &node)?,
        Some(TopKey::Parameters) => content.said = parameters_of(alloc, file, node)?,
    }
    Ok(content)
}

fn empty(alloc: Global) -> Content
    ensures { content_view result ≡ model.empty }
{
    Content {
        includes: Vec::new(alloc),
        said: Said::nothing(alloc),
    }
}

#[tactic(auto, using(crate::proofs::Folds::content_last))]
fn pairs_content(
    alloc: Global,
    file: &str,
    pairs: Items<(Text, Node)>,
) -> Result<Content, OutOfMemory>
    ensures { IfOk result (λ content. content_view content ≡ model.contents_with file.now pairs model.empty) }
{
    let mut left = pairs;
    let mut content = empty(alloc);
    while let Some(pair) = left.pop() {
        let (key, node) = pair;
        content = content_with(alloc, file, top_key(key.as_str()), node, content)?;
    }
    Ok(content)
}

/// What a file says whose tree is this. Texts are moved out of it.
pub fn content_of(alloc: Global, file: &str, node: Node) -> Result<Content, OutOfMemory>
    ensures { IfOk result (λ content. content_view content ≡ model.content_of file.now node) }
{
    match node {
        Node::Map(pairs) => pairs_content(alloc, file, pairs),
        Node::Null | Node::Bool(_) | Node::Int(_) | Node::Text(_) | Node::List(_) => {
            Ok(empty(alloc))
        }
    }
}
