//! The files that the given paths choose.

ghost use Rattle.std.specs.Prelude.{◌≡◌, map, filter, string_bytes, IfOk, OnOk};
ghost use Rattle.stan_paths.specs.Paths.{normal_path};
ghost use Rattle.stan_cli.specs.Project.{is_chosen, is_under, chooses};
ghost use Rattle.stan_cli.specs.Choice.{IsChoice};

use stan_base::OutOfMemory;
use stan_paths::{normal_path, put_in_order};
use std::alloc::Global;

fn is_under(path: &str, file: &str) -> bool
    ensures { result ≡ is_under path.now file.now }
{
    path.is_empty()
        || (file.as_bytes().starts_with(path.as_bytes())
            && file.as_bytes().get(path.len()) == Some(&b'/'))
}

fn chooses(path: &str, file: &str) -> bool
    ensures { result ≡ chooses path.now file.now }
{
    file == path || (is_under(path, file) && file.as_bytes().ends_with(b".php"))
}

/// Whether one of the paths, in normal form, chooses the file.
pub fn is_chosen(paths: &[String], file: &str) -> bool
    ensures { result ≡ is_chosen (map string_bytes paths.now) file.now }
{
    paths.iter().any(|path| chooses(path.as_str(), file))
}

fn normal_paths(alloc: Global, paths: &[String]) -> Result<Vec<String>, OutOfMemory>
    ensures { IfOk result (λ normal. map string_bytes normal.items ≡ map normal_path (map string_bytes paths.now)) }
{
    let mut normal = Vec::new(alloc);
    for path in paths {
        normal.push(normal_path(alloc, path.as_str())?)?;
    }
    Ok(normal)
}

fn keep_chosen(paths: &[String], files: &mut Vec<String>)
    ensures { files.new.items ≡ filter (λ file. is_chosen (map string_bytes paths.now) (string_bytes file)) files.old.items }
{
    files.retain(|file| is_chosen(paths, file.as_str()));
}

/// The files of a listing that the paths choose, in byte order, each once.
pub fn chosen(
    alloc: Global,
    paths: &[String],
    listed: Vec<String>,
) -> Result<Vec<String>, OutOfMemory>
    ensures { IfOk result (λ files. IsChoice (map string_bytes paths.now) (map string_bytes listed.items) (map string_bytes files.items)) }
{
    let normal = normal_paths(alloc, paths)?;
    let mut files = listed;
    keep_chosen(&normal, &mut files);
    put_in_order(&mut files)?;
    Ok(files)
}
