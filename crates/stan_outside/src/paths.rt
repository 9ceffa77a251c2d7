//! Whether files can be put into a tree, by their paths.

ghost use Rattle.std.specs.Prelude.{◌≡◌, ◌↔◌, All, IsTrue};
ghost use Rattle.stan_outside.specs.Outside.{IsPath};
ghost use Rattle.stan_outside.specs.Memory.{AreFiles, AreRising, Rise, is_name, is_path, path_of};

// Whether a part of a path is neither empty nor `.` or `..`.
fn is_name(part: &str) -> bool
    ensures { result ≡ is_name part.now }
{
    !part.is_empty() && part != "." && part != ".."
}

fn is_path(path: &str) -> bool
    ensures { result ≡ is_path path.now }
{
    path.split('/').all(|part| is_name(part))
}

fn are_proper(files: &[(String, Vec<u8>)]) -> bool
    ensures { IsTrue result ↔ All (λ file. IsPath (path_of file)) files.now }
{
    files.iter().all(|file| is_path(&file.0))
}

fn rise(files: &[(String, Vec<u8>)]) -> bool
    ensures { IsTrue result ↔ Rise files.now }
{
    files.is_sorted_by(|a, b| a.0 < b.0)
}

/// Whether each path is proper and less, in byte order, than those behind it. Then a tree can be
/// made of the files.
pub fn are_files(files: &[(String, Vec<u8>)]) -> bool
    ensures exact { IsTrue result ↔ AreRising files.now }
    ensures files { IsTrue result → AreFiles files.now }
{
    are_proper(files) && rise(files)
}
