//! The analyst of PHP source.

ghost use Rattle.std.specs.Prelude.{◌≡◌, ◌≤◌, IfOk, map, length, vec_len};
ghost use Rattle.stan_model_readings.specs.Reading as model;
ghost use Rattle.stan_model_relations.specs.Exports.{exports_of};
ghost use Rattle.stan_analyst.specs.Verdict.{IsVerdict};
ghost use Rattle.stan_table.specs.Table.{node_of};
ghost use Rattle.stan_table.specs.Index.{index_table};
ghost use Rattle.stan_stmt_trees.specs.Files.{file_of};

use crate::faults::faults_of;
use crate::reading::{Reading, read};
use stan_analyst::Verdict;
use stan_base::OutOfMemory;
use stan_export::exports;
use stan_stmt_trees::FileTree;
use stan_table::{Exported, Index, Source};
use std::alloc::Global;
use std::sync::Arc;

/// Reads and judges one file at a time.
#[derive(Debug, Drop)]
pub struct PhpAnalyst {}

// What a tree declares. A file has a byte at least for each declaration, which is tested here, as it isn't proved of trees.
fn few_exports(alloc: Global, source: &[u8], tree: &FileTree) -> Result<Vec<Exported>, OutOfMemory>
    ensures nodes { IfOk result (λ nodes. map node_of nodes.items ≡ exports_of source.now (model.Readable (file_of tree.now))) }
    ensures few { IfOk result (λ nodes. vec_len nodes ≤ length source.now) }
{
    let nodes = exports(alloc, source, tree)?;
    if nodes.len() > source.len() {
        return Err(OutOfMemory);
    }
    Ok(nodes)
}

impl PhpAnalyst {
    /// An analyst, which holds nothing between two files.
    pub fn new() -> PhpAnalyst {
        PhpAnalyst {}
    }

    /// What a source of any length declares, in order of place. A source that cannot be read declares nothing.
    pub fn exports(&mut self, alloc: Global, source: &[u8]) -> Result<Vec<Exported>, OutOfMemory>
        ensures nodes { IfOk result (λ nodes. (reading : model.Reading) × model.IsReading source.now reading × (map node_of nodes.items ≡ exports_of source.now reading)) }
        ensures few { IfOk result (λ nodes. vec_len nodes ≤ length source.now) }
    {
        match read(alloc, source)? {
            Reading::Readable(tree) => few_exports(alloc, source, &tree),
            Reading::TooLarge => Ok(Vec::new(alloc)),
            Reading::NotUtf8 => Ok(Vec::new(alloc)),
            Reading::Broken(_) => Ok(Vec::new(alloc)),
        }
    }

    /// The verdict of a source of any length at a level, over the index's table.
    pub fn judge(
        &mut self,
        alloc: Global,
        source: &Arc<Source>,
        level: u8,
        index: &Index,
    ) -> Result<Verdict, OutOfMemory>
        ensures { IfOk result (λ verdict. (reading : model.Reading) × model.IsReading source.now.value.bytes.items reading
            × IsVerdict (index_table index.now) source.now.value.bytes.items level reading verdict) }
    {
        let bytes = source.bytes.as_slice();
        let reading = read(alloc, bytes)?;
        let faults = faults_of(alloc, bytes, level, &reading, index)?;
        Ok(Verdict {
            faults,
            collected: Vec::new(alloc),
            ignored: Vec::new(alloc),
        })
    }
}
