//! Why a run gives no report.

ghost use Rattle.std.specs.Prelude.{◌≡◌};
ghost use Rattle.stan_cli.specs.declared.refusal.Refusal.TheVariants as refusals;

use crate::WordsPart;
use stan_base as base;
use stan_outside::{Fail, Failed};
use std::fmt;

/// Which number passed its limit.
#[derive(Clone, Copy, Debug, PartialEq, Eq)]
pub enum Which {
    /// 50,000 files.
    Files,
    /// 268,435,456 bytes of all files together.
    Bytes,
}

/// Why a run gave no report, one variant a cause.
#[derive(Clone, Copy, Debug, PartialEq, Eq)]
pub enum Refusal {
    BadWords { part: WordsPart },
    Limit { which: Which, counted: u64 },
    /// Listing or reading the folder failed.
    TreeFault,
    /// Writing the report failed. A front of it was written.
    SinkFault,
    OutOfMemory,
}

impl fmt::Display for Refusal {
    ghost use Rattle.std.specs.Prelude.{Some};
    ghost use Rattle.stan_cli.specs.Refusal.{refusal_text};

    ghost output = { λ refusal. Some (refusal_text refusal) };

    fn fmt<W: fmt::Write>(&self, f: &mut fmt::Formatter<W>) -> fmt::Result {
        match self {
            Refusal::BadWords { .. } => write!(f, "bad words"),
            Refusal::Limit {
                which: Which::Files,
                counted,
            } => write!(f, "too many files: {counted}"),
            Refusal::Limit {
                which: Which::Bytes,
                counted,
            } => write!(f, "too many bytes: {counted}"),
            Refusal::TreeFault => write!(f, "reading the project failed"),
            Refusal::SinkFault => write!(f, "output failed"),
            Refusal::OutOfMemory => write!(f, "out of memory"),
        }
    }
}

impl From<base::OutOfMemory> for Refusal {
    ghost from_gives = { λ _ e. e ≡ refusals.OutOfMemory };

    fn from(_: base::OutOfMemory) -> Self {
        Refusal::OutOfMemory
    }
}

impl From<Fail> for Refusal {
    ghost use Rattle.stan_cli.specs.Refusal.{refusal_of_fail};

    ghost from_gives = { λ fail e. e ≡ refusal_of_fail fail };

    fn from(fail: Fail) -> Self {
        match fail {
            Fail::Failed => Refusal::TreeFault,
            Fail::OutOfMemory => Refusal::OutOfMemory,
        }
    }
}

impl From<Failed> for Refusal {
    ghost from_gives = { λ _ e. e ≡ refusals.SinkFault };

    fn from(_: Failed) -> Self {
        Refusal::SinkFault
    }
}
