//! A name that no file declares, by either of the names that it may mean.

ghost use Rattle.std.specs.Prelude.{◌≡◌, IfOk};
ghost use Rattle.stan_base.specs.Name.{name_bytes};
ghost use Rattle.stan_model_verdict.specs.Missing as model;
ghost use Rattle.stan_table.specs.Index.{index_table};
ghost use Rattle.stan_analyse.specs.Facts.{name_fact_of};

use crate::facts::NameFact;
use stan_base::{AskKind, Name, OutOfMemory};
use stan_table::{Ask, Index};
use std::alloc::Global;

fn is_absent(alloc: Global, kind: AskKind, name: &Name, index: &Index) -> Result<bool, OutOfMemory>
    ensures { IfOk result (λ absent. absent ≡ model.is_absent (index_table index.now) kind (name_bytes name.now)) }
{
    let ask = Ask::new(alloc, kind, name)?;
    Ok(index.find(&ask).is_none())
}

/// Whether the table lacks both names.
pub fn is_missing(
    alloc: Global,
    kind: AskKind,
    fact: &NameFact,
    index: &Index,
) -> Result<bool, OutOfMemory>
    ensures { IfOk result (λ missing. missing ≡ model.is_missing (index_table index.now) kind (name_fact_of fact.now)) }
{
    if !is_absent(alloc, kind, &fact.name, index)? {
        return Ok(false);
    }
    match &fact.second {
        None => Ok(true),
        Some(second) => is_absent(alloc, kind, second, index),
    }
}

/// The name that is shown: a second one stands without the namespace.
pub fn missing_name(fact: &NameFact) -> &[u8]
    ensures { result.now ≡ model.missing_name (name_fact_of fact.now) }
{
    match &fact.second {
        None => fact.name.bytes(),
        Some(second) => second.bytes(),
    }
}
