//! Full names of classes, functions and constants.

ghost use Rattle.std.specs.Prelude.{◌≡◌, ◌↔◌, IsTrue, IfOk};
ghost use Rattle.stan_base.specs.Name.{name_bytes};
ghost use Rattle.stan_base.specs.Bytes.{fold_case};
ghost use Rattle.stan_base.specs.Names.{begins_relative};

use crate::OutOfMemory;
use std::alloc::Global;

/// A full name without a leading backslash, seen as a list of bytes (`name_bytes`).
#[derive(Drop)]
pub struct Name {
    bytes: Vec<u8>,
}

impl Name {
    /// The name of these bytes, of any length. Only memory can be wanting.
    pub fn new(alloc: Global, bytes: &[u8]) -> Result<Name, OutOfMemory>
        ensures { IfOk result (λ name. name_bytes name ≡ bytes.now) }
    {
        let bytes = bytes.to_vec(alloc)?;
        Ok(Name { bytes })
    }

    /// The bytes of the name, as they were given.
    pub fn bytes(&self) -> &[u8]
        ensures { result.now ≡ name_bytes self.now }
    {
        self.bytes.as_slice()
    }

    /// A name of equal bytes. Only memory can be wanting.
    pub fn copy(&self, alloc: Global) -> Result<Name, OutOfMemory>
        ensures { IfOk result (λ name. name_bytes name ≡ name_bytes self.now) }
    {
        Name::new(alloc, self.bytes())
    }

    /// Whether the names are equal with `A` to `Z` read as `a` to `z`.
    pub fn folds_to(&self, other: &Name) -> bool
        ensures { IsTrue result ↔ (fold_case (name_bytes self.now) ≡ fold_case (name_bytes other.now)) }
    {
        self.bytes().eq_ignore_ascii_case(other.bytes())
    }
}

// What a name begins with that is meant in the present namespace.
const RELATIVE: &[u8] = b"namespace\\";

/// Whether a name begins with `namespace\`, in any case.
pub fn begins_relative(name: &[u8]) -> bool
    ensures { result ≡ begins_relative name.now }
{
    name[..name.len().min(10)].eq_ignore_ascii_case(RELATIVE)
}
