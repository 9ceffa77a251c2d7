//! Sets of paths. Whether a file stands under one of many is a look-up for each `/` of its path.

ghost use Rattle.std.specs.Prelude.{◌≡◌, ◌↔◌, ◌||◌, ℕ, List, map, string_bytes, IsTrue, OnOk};
ghost use Rattle.stan_paths.specs.Paths.{normal_path};
ghost use Rattle.stan_select.specs.Names.{has, is_among, HasFolder, Covers, HasChooser};

use stan_base::OutOfMemory;
use stan_paths::normal_path;
use std::alloc::Global;
use std::collections::BTreeSet;

const SEPARATOR: u8 = b'/';

/// Paths in normal form.
pub type Names = BTreeSet<Vec<u8>>;

/// Adds the normal forms of paths.
pub fn add_names(alloc: Global, names: &mut Names, paths: &[String]) -> Result<(), OutOfMemory>
    ensures { OnOk result ((path : List ℕ) → has names.new path ≡ (has names.old path || is_among (map normal_path (map string_bytes paths.now)) path)) }
{
    for path in paths {
        let normal = normal_path(alloc, path.as_str())?;
        names.insert(normal.into_bytes())?;
    }
    Ok(())
}

/// Whether a file stands under one of the paths.
pub fn has_folder(names: &Names, file: &[u8]) -> bool
    ensures { IsTrue result ↔ HasFolder names.now file.now }
{
    for (at, byte) in file.iter().enumerate() {
        if *byte == SEPARATOR && names.contains(&file[..at]) {
            return true;
        }
    }
    names.contains(&file[..0])
}

/// Whether a file is one of the paths, or stands under one of them.
pub fn covers(names: &Names, file: &[u8]) -> bool
    ensures { IsTrue result ↔ Covers names.now file.now }
{
    names.contains(file) || has_folder(names, file)
}

/// Whether one of the paths chooses a file.
pub fn has_chooser(names: &Names, file: &[u8]) -> bool
    ensures { IsTrue result ↔ HasChooser names.now file.now }
{
    names.contains(file) || (file.ends_with(b".php") && has_folder(names, file))
}
