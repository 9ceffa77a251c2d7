//! Rule 15: a constant is named that no file declares.

ghost use Rattle.std.specs.Prelude.{◌≡◌, ◌++◌, IfOk, codes, option_map, string_bytes};
ghost use Rattle.std.specs.Option.{option_to_list};
ghost use Rattle.stan_model_verdict.specs.ConstantNotFound as model;
ghost use Rattle.stan_model_verdict.specs.Fault.{shown};
ghost use Rattle.stan_analyst.specs.Verdict.{fault_of};
ghost use Rattle.stan_table.specs.Index.{index_table};
ghost use Rattle.stan_analyse.specs.Facts.{fact_of, name_fact_of};

use crate::facts::{Fact, NameFact};
use crate::rules::missing::{is_missing, missing_name};
use bstr::ByteSlice;
use stan_analyst::Fault;
use stan_base::{AskKind, OutOfMemory};
use stan_table::Index;
use std::alloc::Global;

/// The number of the rule.
pub const NUMBER: u16 = 15;

/// The level from which on it comes, 0 to 9.
pub const LEVEL: u8 = 0;

/// The fault of a constant, if the table lacks it.
pub fn judge(alloc: Global, fact: &Fact, index: &Index) -> Result<Option<Fault>, OutOfMemory>
    ensures { IfOk result (λ fault. option_to_list (option_map fault_of fault) ≡ model.constants_not_found (index_table index.now) (fact_of fact.now)) }
{
    match fact {
        Fact::Constant(name) => {
            if is_missing(alloc, AskKind::Constant, name, index)? {
                Ok(Some(fault(alloc, name)?))
            } else {
                Ok(None)
            }
        }
        Fact::Call(_) => Ok(None),
    }
}

fn fault(alloc: Global, fact: &NameFact) -> Result<Fault, OutOfMemory>
    ensures { IfOk result (λ fault. fault_of fault ≡ model.constant_not_found (name_fact_of fact.now)) }
{
    let text = text(alloc, missing_name(fact))?;
    Ok(Fault {
        line: fact.line,
        rule: NUMBER,
        text,
    })
}

fn text(alloc: Global, name: &[u8]) -> Result<String, OutOfMemory>
    ensures { IfOk result (λ text. string_bytes text ≡ codes "Constant " ++ shown name.now ++ codes " not found.") }
{
    let mut text = String::from_str(alloc, "Constant ")?;
    name.to_str_lossy_into(&mut text)?;
    text.push_str(" not found.")?;
    Ok(text)
}
