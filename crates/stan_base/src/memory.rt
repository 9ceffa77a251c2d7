//! Want of memory, the one refusal that may come at any time.

use std::alloc::{AllocError, AllocFailed};

/// Memory is wanting. It may be answered at any time, and stands for nothing else.
#[derive(Clone, Copy, Debug, PartialEq, Eq)]
pub struct OutOfMemory;

impl From<AllocError> for OutOfMemory {
    fn from(_: AllocError) -> Self {
        OutOfMemory
    }
}

impl<T: Drop> From<AllocFailed<T>> for OutOfMemory {
    fn from(_: AllocFailed<T>) -> Self {
        OutOfMemory
    }
}
