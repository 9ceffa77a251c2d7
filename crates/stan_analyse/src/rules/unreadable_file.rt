//! Rule 0: the file cannot be read. It comes once, for the first reason that there is.

ghost use Rattle.std.specs.Prelude.{◌≡◌, IfOk, [], ◌∷◌, map};
ghost use Rattle.stan_model_verdict.specs.UnreadableFile.{unreadable};
ghost use Rattle.stan_analyst.specs.Verdict.{fault_of};

use stan_analyst::Fault;
use stan_base::OutOfMemory;
use std::alloc::Global;

/// The number of the rule.
pub const NUMBER: u16 = 0;

/// The level from which on it comes, 0 to 9.
pub const LEVEL: u8 = 0;

/// Of a file of more than 1,048,576 bytes, at line 1.
pub const TOO_LARGE: &str = "File is larger than 1048576 bytes.";

/// Of bytes that are no UTF-8, at line 1.
pub const NOT_UTF8: &str = "File is not UTF-8.";

/// Of tokens that spell no file, at the line of the token behind the longest front.
pub const BROKEN: &str = "Syntax error or a form outside the profile.";

/// The one fault of a file that cannot be read, for the reason that this text tells.
pub fn fault(alloc: Global, line: u32, text: &str) -> Result<Vec<Fault>, OutOfMemory>
    ensures { IfOk result (λ faults. map fault_of faults.items ≡ unreadable line text.now ∷ []) }
{
    let text = String::from_str(alloc, text)?;
    let mut faults = Vec::new(alloc);
    faults.push(Fault {
        line,
        rule: NUMBER,
        text,
    })?;
    Ok(faults)
}
