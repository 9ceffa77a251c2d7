//! Listing and reading the folder.

ghost use Rattle.std.specs.Prelude.{◌≡◌, ◌≤◌, ◌<◌, ◌+◌, map, length, string_bytes, None, IfOk, IfErr, IsSome};
ghost use Rattle.std.specs.FinMap as finite;
ghost use Rattle.stan_cli.specs.Project.{chosen_files, paths_of, most_files, excess_from};
ghost use Rattle.stan_model_readings.specs.Reading.{largest_source};
ghost use Rattle.stan_outside.specs.Outside.{RoseBy};
ghost use Rattle.stan_cli.specs.Seen.{seen_tree};
ghost use Rattle.stan_cli.specs.Sources.{source_bytes, source_at, AreHeld, KeepsTree, IsTreeRefusal, IsListRefusal, IsReadRefusal};

use crate::choice::chosen;
use crate::{Refusal, Which};
use stan_outside::Tree;
use stan_table::Source;
use std::alloc::Global;
use std::sync::Arc;

/// The most files that are analysed together.
pub const MOST_FILES: usize = 50_000;

/// The most bytes that are read of them together.
pub const MOST_BYTES: u64 = 268_435_456;

/// How many bytes of a file are read: one more than a file may have.
const MOST_READ: u32 = 1_048_577;

/// The chosen files of the folder in byte order.
pub fn list_chosen<T: Tree>(
    alloc: Global,
    tree: &mut T,
    paths: &[String],
) -> Result<Vec<String>, Refusal>
    ensures chosen { IfOk result (λ files. T.tells tree.old → map string_bytes files.items ≡ paths_of (chosen_files (map string_bytes paths.now) (T.contents tree.old))) }
    ensures few { IfOk result (λ files. length files.items ≤ most_files) }
    ensures refused { IfErr result (λ refusal. IsListRefusal (seen_tree T.tells T.contents T.never_fails T.faults T.listings T.reads tree.old tree.new) (length (chosen_files (map string_bytes paths.now) (T.contents tree.old))) refusal) }
    ensures listed { RoseBy 1 (T.listings tree.old) (T.listings tree.new) }
    ensures unread { T.reads tree.new ≡ T.reads tree.old }
    ensures keeps { KeepsTree T.tells T.contents T.faults T.never_fails tree.old tree.new }
{
    let listed = tree.list(alloc)?;
    let files = chosen(alloc, paths, listed)?;
    let number = files.as_slice().len();
    if number > MOST_FILES {
        return Err(Refusal::Limit {
            which: Which::Files,
            counted: number as u64,
        });
    }
    Ok(files)
}

fn read_source<T: Tree>(alloc: Global, tree: &mut T, path: &str) -> Result<Arc<Source>, Refusal>
    requires { T.tells tree.old → IsSome (finite.get (T.contents tree.old) path.now) }
    ensures source { IfOk result (λ source. T.tells tree.old → source_bytes source ≡ source_at (T.contents tree.old) path.now) }
    ensures most { IfOk result (λ source. length (source_bytes source) ≤ largest_source + 1) }
    ensures refused { IfErr result (λ refusal. IsTreeRefusal (seen_tree T.tells T.contents T.never_fails T.faults T.listings T.reads tree.old tree.new) refusal) }
    ensures unlisted { T.listings tree.new ≡ T.listings tree.old }
    ensures read { RoseBy 1 (T.reads tree.old) (T.reads tree.new) }
    ensures keeps { KeepsTree T.tells T.contents T.faults T.never_fails tree.old tree.new }
{
    let bytes = tree.read(alloc, path, MOST_READ)?;
    match Arc::new(alloc, Source { bytes }) {
        Ok(source) => Ok(source),
        Err(_) => Err(Refusal::OutOfMemory),
    }
}

/// The sources at the paths, each read once.
pub fn read_sources<T: Tree>(
    alloc: Global,
    tree: &mut T,
    paths: &[String],
) -> Result<Vec<Arc<Source>>, Refusal>
    requires { T.tells tree.old → AreHeld (T.contents tree.old) (map string_bytes paths.now) }
    ensures sources { IfOk result (λ sources. T.tells tree.old → map source_bytes sources.items ≡ map (source_at (T.contents tree.old)) (map string_bytes paths.now)) }
    ensures each { IfOk result (λ sources. length sources.items ≡ length paths.now) }
    ensures within { IfOk result (λ sources. excess_from 0 (map source_bytes sources.items) ≡ None) }
    ensures refused { IfErr result (λ refusal. IsReadRefusal (seen_tree T.tells T.contents T.never_fails T.faults T.listings T.reads tree.old tree.new) (map (source_at (T.contents tree.old)) (map string_bytes paths.now)) refusal) }
    ensures unlisted { T.listings tree.new ≡ T.listings tree.old }
    ensures read_once { IfOk result (λ sources. RoseBy (length paths.now) (T.reads tree.old) (T.reads tree.new)) }
    ensures keeps { KeepsTree T.tells T.contents T.faults T.never_fails tree.old tree.new }
{
    let mut sources = Vec::new(alloc);
    let mut total: u64 = 0;
    for path in paths {
        let source = read_source(alloc, tree, path.as_str())?;
        total += source.bytes.as_slice().len() as u64;
        if total > MOST_BYTES {
            return Err(Refusal::Limit {
                which: Which::Bytes,
                counted: total,
            });
        }
        match sources.push(source) {
            Ok(()) => {}
            Err(_) => return Err(Refusal::OutOfMemory),
        }
    }
    Ok(sources)
}
