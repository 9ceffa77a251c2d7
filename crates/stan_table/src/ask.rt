//! A question to the table: the kind of a declaration and its folded name.

ghost use Rattle.std.specs.Prelude.{◌≡◌, ◌⊎◌, ◌≢◌, ℕ, ◌-◌, ◌<◌, ◌≤◌, IfOk, length, slice_index};
ghost use Rattle.stan_base.specs.Name.{name_bytes};
ghost use Rattle.stan_base.specs.Names.{fold_name, fold_namespace};

use stan_base::{AskKind, Name, OutOfMemory};
use std::alloc::Global;

/// An ask for a class, a function or a constant by its folded name: `A` to `Z` are read as `a` to `z`, in the name of a
/// constant in its namespace alone.
#[derive(Drop)]
pub struct Ask {
    pub kind: AskKind,
    pub name: Name,
    ghost folded: { fold_name kind (name_bytes name) ≡ name_bytes name },
}

impl Ask {
    /// Folds the name.
    pub fn new(alloc: Global, kind: AskKind, name: &Name) -> Result<Ask, OutOfMemory>
        ensures kind { IfOk result (λ ask. ask.kind ≡ kind) }
        ensures name { IfOk result (λ ask. name_bytes ask.name ≡ fold_name kind (name_bytes name.now)) }
    {
        let folded = fold(alloc, kind, name.bytes())?;
        let name = Name::new(alloc, folded.as_slice())?;
        Ok(Ask { kind, name })
    }

    /// An equal question. Only memory can be wanting.
    pub fn copy(&self, alloc: Global) -> Result<Ask, OutOfMemory>
        ensures kind { IfOk result (λ ask. ask.kind ≡ self.now.kind) }
        ensures name { IfOk result (λ ask. name_bytes ask.name ≡ name_bytes self.now.name) }
    {
        let name = self.name.copy(alloc)?;
        Ok(Ask {
            kind: self.kind,
            name,
        })
    }
}

// The form in which names of the kind are compared.
pub(crate) fn fold(alloc: Global, kind: AskKind, name: &[u8]) -> Result<Vec<u8>, OutOfMemory>
    ensures { IfOk result (λ folded. folded.items ≡ fold_name kind name.now) }
{
    match kind {
        AskKind::Class | AskKind::Function => Ok(name.to_ascii_lowercase(alloc)?),
        AskKind::Constant => fold_namespace(alloc, name),
    }
}

// The name with its namespace folded.
fn fold_namespace(alloc: Global, name: &[u8]) -> Result<Vec<u8>, OutOfMemory>
    ensures { IfOk result (λ folded. folded.items ≡ fold_namespace name.now) }
{
    let (namespace, last) = name.split_at(namespace_len(name));
    let mut folded = namespace.to_ascii_lowercase(alloc)?;
    folded.extend_from_slice(last)?;
    Ok(folded)
}

// How many bytes stand up to and with the last backslash.
fn namespace_len(name: &[u8]) -> usize
    ensures within { result ≤ length name.now }
    ensures ends { (result ≡ 0) ⊎ (slice_index name.now (result - 1) ≡ 92) }
    ensures last { (k : ℕ) → result ≤ k → k < length name.now → slice_index name.now k ≢ 92 }
{
    match name.iter().rposition(|byte| *byte == b'\\') {
        Some(at) => at + 1,
        None => 0,
    }
}
