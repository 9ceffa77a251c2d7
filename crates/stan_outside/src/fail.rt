//! Why a call on the outside did not do its work.

ghost use Rattle.std.specs.Prelude.{◌≡◌, ◌≤◌};
ghost use Rattle.stan_outside.specs.Outside.{Rose};
ghost use Rattle.stan_outside.specs.declared.fail.Fail.TheVariants as fails;

use std::alloc::{AllocError, AllocFailed};

/// The system failed. The count of faults rose in this call.
#[derive(Clone, Copy, Debug, PartialEq, Eq)]
pub struct Failed;

impl Failed {
    // One failure more, counted up to the end of the type.
    pub(crate) fn counted(faults: &mut u64) -> Failed
        ensures faults { faults.old ≤ faults.new }
        ensures failed { Rose faults.old faults.new }
    {
        *faults = faults.saturating_add(1);
        Failed
    }
}

/// Why a call on the outside did not do its work.
#[derive(Clone, Copy, Debug, PartialEq, Eq)]
pub enum Fail {
    /// The system failed. The count of faults rose in this call.
    Failed,
    OutOfMemory,
}

impl From<Failed> for Fail {
    ghost from_gives = { λ _ e. e ≡ fails.Failed };

    fn from(_: Failed) -> Self {
        Fail::Failed
    }
}

impl From<AllocError> for Fail {
    ghost from_gives = { λ _ e. e ≡ fails.OutOfMemory };

    fn from(_: AllocError) -> Self {
        Fail::OutOfMemory
    }
}

impl<T: Drop> From<AllocFailed<T>> for Fail {
    ghost from_gives = { λ _ e. e ≡ fails.OutOfMemory };

    fn from(_: AllocFailed<T>) -> Self {
        Fail::OutOfMemory
    }
}
