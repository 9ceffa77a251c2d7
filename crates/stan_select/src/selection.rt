//! The choice of files.

ghost use Rattle.std.specs.Prelude.{map, string_bytes, IfOk};
ghost use Rattle.stan_select.specs.Selection.{chosen_files, IsSelection};
ghost use Rattle.stan_select.specs.Lookups.{AreKept, AreMarked};

use crate::lookups::{Lookups, is_kept, lookups_of};
use crate::names::has_chooser;
use stan_base::OutOfMemory;
use stan_paths::put_in_order;
use stan_settings::Config;
use std::alloc::Global;

/// The files of a listing that a configuration chooses, in byte order, each once also where the listing has it more than once: true for
/// a file that is analysed, false for one that is only scanned. Only memory can be wanting.
///
/// Names and folders are looked up, so only entries of `exclude` with a `*` take time for each file.
pub fn select(
    alloc: Global,
    config: &Config,
    listed: &[String],
) -> Result<Vec<(String, bool)>, OutOfMemory>
    ensures { IfOk result (λ files. IsSelection config.now (map string_bytes listed.now) (chosen_files files.items)) }
{
    let lookups = lookups_of(alloc, config)?;
    let mut paths = kept(alloc, &lookups, listed)?;
    put_in_order(&mut paths)?;
    marked(alloc, &lookups, paths)
}

// The files of a listing that are analysed or scanned.
fn kept(alloc: Global, lookups: &Lookups, listed: &[String]) -> Result<Vec<String>, OutOfMemory>
    ensures { IfOk result (λ paths. AreKept lookups.now (map string_bytes listed.now) (map string_bytes paths.items)) }
{
    let mut paths = Vec::new(alloc);
    for file in listed {
        if is_kept(lookups, file.as_bytes()) {
            paths.push(file.clone()?)?;
        }
    }
    Ok(paths)
}

// Paths, each with whether it is analysed.
fn marked(
    alloc: Global,
    lookups: &Lookups,
    paths: Vec<String>,
) -> Result<Vec<(String, bool)>, OutOfMemory>
    ensures { IfOk result (λ files. AreMarked lookups.now (map string_bytes paths.items) (chosen_files files.items)) }
{
    let mut files = Vec::new(alloc);
    for path in paths {
        let analysed = has_chooser(&lookups.analysed, path.as_bytes());
        files.push((path, analysed))?;
    }
    Ok(files)
}
