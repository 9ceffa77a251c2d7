//! A row is played: its text is read, and what is read is compared with what the row wants.

ghost use Rattle.std.specs.Prelude.{◌≡◌, ℕ, List, IfOk, IfSome, IsNone, string_bytes};
ghost use Rattle.stan_rows.specs.Signs.{IsWrong, IsRight};

use crate::signs::plain;
use stan_base::OutOfMemory;
use std::alloc::Global;

/// What a program reads of the texts of a folder, one value a folder.
pub trait Reading {
    /// What may be read of a text. A program that ties its reading to a definition says so here.
    ghost reads: { Self → List ℕ → List ℕ → Type 0 } = { λ _ _ _. Unit {0} };

    /// What is read of a row's text, as text.
    fn reading(&self, alloc: Global, text: &str) -> Result<String, OutOfMemory>
        ensures { IfOk result (λ found. reads self.now text.now (string_bytes found)) };
}

// What was read, unless it is as wanted.
fn unless_wanted(found: String, wanted: &str) -> Option<String>
    ensures same { IsNone result → string_bytes found ≡ wanted.now }
    ensures other { IfSome result (λ other. (other ≡ found) × (string_bytes found ≡ wanted.now → ⊥)) }
{
    if found.as_str() == wanted {
        None
    } else {
        Some(found)
    }
}

/// What is read of a row's text, where that isn't what the row wants. A row is `TEXT ~~> WANTED`, the blanks around both aside;
/// one without `~~>` is never right.
pub fn difference<K: Reading>(
    alloc: Global,
    kind: &K,
    row: &str,
) -> Result<Option<String>, OutOfMemory>
    ensures right { IfOk result (λ answer. IsNone answer → IsRight (K.reads kind.now) row.now) }
    ensures wrong { IfOk result (λ answer. IfSome answer (λ other. IsWrong (K.reads kind.now) row.now (string_bytes other))) }
{
    let Some((text, wanted)) = row.split_once("~~>") else {
        return Ok(Some(String::from_str(alloc, "~~> is missing")?));
    };
    let found = kind.reading(alloc, text.trim())?;
    let wanted = plain(alloc, wanted.trim())?;
    Ok(unless_wanted(found, &wanted))
}
