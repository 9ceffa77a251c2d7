//! What the analysis of a file gives.

ghost use Rattle.std.specs.Prelude.{◌≡◌, IfOk, map};
ghost use Rattle.stan_analyst.specs.Verdict.{fault_of, collected_of};

use stan_base::{Name, OutOfMemory};
use std::alloc::Global;

/// A fault at a line, from 1, by the number of its rule.
#[derive(Debug, Drop, PartialEq, Eq, PartialOrd, Ord)]
pub struct Fault {
    pub line: u32,
    pub rule: u16,
    pub text: String,
}

/// What a collector keeps of a file.
#[derive(Drop)]
pub enum Collected {
    TraitDeclared { name: Name, line: u32 },
    TraitUsed { name: Name },
}

/// What the analysis of one file gives.
#[derive(Drop)]
pub struct Verdict {
    /// By line, rule and text, equal ones once.
    pub faults: Vec<Fault>,
    pub collected: Vec<Collected>,
    /// The lines whose faults a comment ignores.
    pub ignored: Vec<u32>,
}

/// The faults of the file at a path, and the lines whose faults are ignored.
#[derive(Drop)]
pub struct FileFaults {
    pub path: String,
    pub faults: Vec<Fault>,
    pub ignored: Vec<u32>,
}

impl Fault {
    /// An equal fault. Only memory can be wanting.
    pub fn copy(&self, alloc: Global) -> Result<Fault, OutOfMemory>
        ensures { IfOk result (λ fault. fault_of fault ≡ fault_of self.now) }
    {
        let text = String::from_str(alloc, self.text.as_str())?;
        Ok(Fault {
            line: self.line,
            rule: self.rule,
            text,
        })
    }
}

impl Collected {
    /// An equal value. Only memory can be wanting.
    pub fn copy(&self, alloc: Global) -> Result<Collected, OutOfMemory>
        ensures { IfOk result (λ collected. collected_of collected ≡ collected_of self.now) }
    {
        match self {
            Collected::TraitDeclared { name, line } => Ok(Collected::TraitDeclared {
                name: name.copy(alloc)?,
                line: *line,
            }),
            Collected::TraitUsed { name } => Ok(Collected::TraitUsed {
                name: name.copy(alloc)?,
            }),
        }
    }
}

impl Verdict {
    /// An equal verdict. Only memory can be wanting.
    pub fn copy(&self, alloc: Global) -> Result<Verdict, OutOfMemory>
        ensures faults { IfOk result (λ verdict. map fault_of verdict.faults.items ≡ map fault_of self.now.faults.items) }
        ensures collected { IfOk result (λ verdict. map collected_of verdict.collected.items ≡ map collected_of self.now.collected.items) }
        ensures ignored { IfOk result (λ verdict. verdict.ignored.items ≡ self.now.ignored.items) }
    {
        let faults = copy_faults(alloc, self.faults.as_slice())?;
        let collected = copy_collected(alloc, self.collected.as_slice())?;
        let ignored = self.ignored.as_slice().to_vec(alloc)?;
        Ok(Verdict {
            faults,
            collected,
            ignored,
        })
    }
}

fn copy_faults(alloc: Global, faults: &[Fault]) -> Result<Vec<Fault>, OutOfMemory>
    ensures { IfOk result (λ copies. map fault_of copies.items ≡ map fault_of faults.now) }
{
    let mut copies = Vec::new(alloc);
    for fault in faults {
        copies.push(fault.copy(alloc)?)?;
    }
    Ok(copies)
}

fn copy_collected(alloc: Global, all: &[Collected]) -> Result<Vec<Collected>, OutOfMemory>
    ensures { IfOk result (λ copies. map collected_of copies.items ≡ map collected_of all.now) }
{
    let mut copies = Vec::new(alloc);
    for collected in all {
        copies.push(collected.copy(alloc)?)?;
    }
    Ok(copies)
}
