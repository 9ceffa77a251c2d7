//! A configuration, ready for look-ups.

ghost use Rattle.std.specs.Prelude.{◌≡◌, ◌↔◌, map, filter, string_bytes, IsTrue, IfOk};
ghost use Rattle.stan_paths.specs.Paths.{normal_path};
ghost use Rattle.stan_select.specs.Lookups.{has_star, AreLookups, HasPattern, IsExcluded, HasAnyChooser, IsKept};

use crate::names::{Names, add_names, covers, has_chooser};
use stan_base::OutOfMemory;
use stan_paths::normal_path;
use stan_patterns::matches;
use stan_settings::Config;
use std::alloc::Global;
use std::collections::BTreeSet;

/// The paths of a configuration.
#[derive(Drop)]
pub struct Lookups {
    pub analysed: Names,
    pub scanned: Names,
    pub excluded: Names,
    /// The entries of `excludePaths` that have a `*`.
    pub patterns: Vec<String>,
}

/// The paths of a configuration, ready for look-ups.
pub fn lookups_of(alloc: Global, config: &Config) -> Result<Lookups, OutOfMemory>
    ensures { IfOk result (λ lookups. AreLookups config.now lookups) }
{
    let mut analysed = BTreeSet::new(alloc);
    add_names(alloc, &mut analysed, &config.paths)?;
    let mut scanned = BTreeSet::new(alloc);
    add_names(alloc, &mut scanned, &config.scan_files)?;
    add_names(alloc, &mut scanned, &config.scan_directories)?;
    let mut excluded = BTreeSet::new(alloc);
    add_names(alloc, &mut excluded, &config.exclude)?;
    let patterns = starred(alloc, &config.exclude)?;
    Ok(Lookups {
        analysed,
        scanned,
        excluded,
        patterns,
    })
}

fn has_star(path: &[u8]) -> bool
    ensures { result ≡ has_star path.now }
{
    path.contains(&b'*')
}

// The entries that have a `*`, in normal form.
fn starred(alloc: Global, entries: &[String]) -> Result<Vec<String>, OutOfMemory>
    ensures { IfOk result (λ patterns. map string_bytes patterns.items ≡ filter has_star (map normal_path (map string_bytes entries.now))) }
{
    let mut patterns = Vec::new(alloc);
    for entry in entries {
        let normal = normal_path(alloc, entry.as_str())?;
        if has_star(normal.as_bytes()) {
            patterns.push(normal)?;
        }
    }
    Ok(patterns)
}

fn has_pattern(patterns: &[String], file: &[u8]) -> bool
    ensures { IsTrue result ↔ HasPattern (map string_bytes patterns.now) file.now }
{
    for pattern in patterns {
        if matches(pattern.as_bytes(), file) {
            return true;
        }
    }
    false
}

/// Whether an entry of `excludePaths` takes a file away.
pub fn is_excluded(lookups: &Lookups, file: &[u8]) -> bool
    ensures { IsTrue result ↔ IsExcluded lookups.now file.now }
{
    covers(&lookups.excluded, file) || has_pattern(&lookups.patterns, file)
}

// Whether a path chooses a file, be it to be analysed or scanned.
fn has_any_chooser(lookups: &Lookups, file: &[u8]) -> bool
    ensures { IsTrue result ↔ HasAnyChooser lookups.now file.now }
{
    has_chooser(&lookups.analysed, file) || has_chooser(&lookups.scanned, file)
}

/// Whether a file is analysed or scanned.
pub fn is_kept(lookups: &Lookups, file: &[u8]) -> bool
    ensures { IsTrue result ↔ IsKept lookups.now file.now }
{
    has_any_chooser(lookups, file) && !is_excluded(lookups, file)
}
