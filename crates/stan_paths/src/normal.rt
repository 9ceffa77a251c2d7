//! Paths in normal form.

ghost use Rattle.std.specs.Prelude.{◌≡◌, map, filter, string_bytes, IfOk};
ghost use Rattle.stan_outside.specs.Contents.{parts_of, is_proper_part};
ghost use Rattle.stan_paths.specs.Paths.{normal_path};

use stan_base::OutOfMemory;
use std::alloc::{AllocError, Global};

/// Whether a part of a path is neither empty nor `.`.
pub fn is_proper_part(part: &str) -> bool
    ensures { result ≡ is_proper_part part.now }
{
    part != "" && part != "."
}

fn proper_parts(alloc: Global, path: &str) -> Result<Vec<&str>, AllocError>
    ensures { IfOk result (λ parts. map (λ part. part.now) parts.items ≡ filter is_proper_part (parts_of path.now)) }
{
    path.split('/')
        .filter(|part| is_proper_part(part))
        .collect(alloc)
}

/// A path without empty parts and parts `.`: `.` and the empty path name the whole folder.
#[tactic(auto, using(crate::proofs::ListLemmas::join_by_texts))]
pub fn normal_path(alloc: Global, path: &str) -> Result<String, OutOfMemory>
    ensures { IfOk result (λ normal. string_bytes normal ≡ normal_path path.now) }
{
    let parts = proper_parts(alloc, path)?;
    Ok(parts.as_slice().join(alloc, "/")?)
}

/// Paths in normal form, each at its place.
pub fn normal_paths(alloc: Global, paths: &[String]) -> Result<Vec<String>, OutOfMemory>
    ensures { IfOk result (λ normal. map string_bytes normal.items ≡ map normal_path (map string_bytes paths.now)) }
{
    let mut normal = Vec::new(alloc);
    for path in paths {
        normal.push(normal_path(alloc, path.as_str())?)?;
    }
    Ok(normal)
}
