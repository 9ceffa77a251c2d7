//! Paths relative to the folder of a file.

ghost use Rattle.std.specs.Prelude.{◌≡◌, map, string_bytes, option_map, IfOk};
ghost use Rattle.stan_outside.specs.Contents.{parts_of};
ghost use Rattle.stan_model_config.specs.Paths as model;

use stan_base::OutOfMemory;
use stan_paths::is_proper_part;
use std::alloc::{AllocError, Global};

fn is_absolute(path: &str) -> bool
    ensures { result ≡ model.is_absolute path.now }
{
    path.as_bytes().starts_with(b"/")
}

fn parts_of(alloc: Global, path: &str) -> Result<Vec<&str>, AllocError>
    ensures { IfOk result (λ parts. map (λ part. part.now) parts.items ≡ parts_of path.now) }
{
    path.split('/').collect(alloc)
}

// The folder in which a file stands.
fn folder_of(alloc: Global, file: &str) -> Result<Vec<&str>, AllocError>
    ensures { IfOk result (λ parts. map (λ part. part.now) parts.items ≡ model.folder_of file.now) }
{
    let mut parts = parts_of(alloc, file)?;
    parts.pop();
    Ok(parts)
}

// From a folder along the parts of a path. None where it leads above the project's folder.
fn go<'a>(from: Vec<&'a str>, parts: &[&'a str]) -> Result<Option<Vec<&'a str>>, AllocError>
    ensures { IfOk result (λ end. option_map (λ folder. map (λ part. part.now) folder.items) end ≡ model.go (map (λ part. part.now) from.entry.items) (map (λ part. part.now) parts.now)) }
{
    let mut folder = from;
    for part in parts {
        if is_proper_part(part) {
            if *part == ".." {
                if folder.pop().is_none() {
                    return Ok(None);
                }
            } else {
                folder.push(part)?;
            }
        }
    }
    Ok(Some(folder))
}

/// What a path means that stands in a file: it is relative to the file's folder. None where it leads outside the project's
/// folder, as one that begins with `/` or that is above it at some part.
#[tactic(auto, using(stan_paths::proofs::ListLemmas::join_by_texts))]
pub fn resolved(alloc: Global, file: &str, path: &str) -> Result<Option<String>, OutOfMemory>
    ensures { IfOk result (λ path_there. option_map string_bytes path_there ≡ model.resolved file.now path.now) }
{
    if is_absolute(path) {
        return Ok(None);
    }
    let folder = folder_of(alloc, file)?;
    let parts = parts_of(alloc, path)?;
    match go(folder, &parts)? {
        Some(there) => Ok(Some(there.as_slice().join(alloc, "/")?)),
        None => Ok(None),
    }
}
