//! The raw report.

ghost use Rattle.std.specs.Prelude.{◌≡◌, ◌++◌, map, string_bytes, IfOk, OnOk};
ghost use Rattle.stan_analyst.specs.Verdict.{fault_of};
ghost use Rattle.stan_cli.specs.Raw.{raw_text, raw_lines, raw_line};
ghost use Rattle.stan_cli.specs.Files.{file_of};

use stan_analyst::{Fault, FileFaults};
use stan_base::OutOfMemory;
use std::alloc::Global;

/// A line `PATH:LINE:TEXT` for each fault.
pub fn raw(alloc: Global, files: &[FileFaults]) -> Result<String, OutOfMemory>
    ensures { IfOk result (λ text. string_bytes text ≡ raw_text (map file_of files.now)) }
{
    let mut text = String::new(alloc);
    for file in files {
        push_faults(&mut text, file.path.as_str(), file.faults.as_slice())?;
    }
    Ok(text)
}

fn push_faults(text: &mut String, path: &str, faults: &[Fault]) -> Result<(), OutOfMemory>
    ensures { OnOk result (string_bytes text.new ≡ string_bytes text.old ++ raw_lines (path.now, map fault_of faults.now)) }
{
    for fault in faults {
        push_fault(text, path, fault)?;
    }
    Ok(())
}

fn push_fault(text: &mut String, path: &str, fault: &Fault) -> Result<(), OutOfMemory>
    ensures { OnOk result (string_bytes text.new ≡ string_bytes text.old ++ raw_line path.now (fault_of fault.now)) }
{
    let line = fault.line;
    let message = fault.text.as_str();
    writeln!(text, "{path}:{line}:{message}")?;
    Ok(())
}
