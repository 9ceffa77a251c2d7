//! Why a configuration was not loaded.

ghost use Rattle.std.specs.Prelude.{◌≡◌};
ghost use Rattle.stan_config.specs.declared.stop.ConfigStop.TheVariants as stops;

use stan_base::OutOfMemory;
use std::alloc::{AllocError, AllocFailed};

/// Why a configuration was not loaded. Paths are relative to the project's folder.
#[derive(Debug, Drop)]
pub enum ConfigStop {
    /// The file that the words name, or one that is included, isn't listed.
    Missing { path: String },
    /// The file is no NEON. The line counts from 1.
    BadNeon { path: String, line: u32 },
    /// The first key at which the file is at fault, from the top on with `.` between them. Empty where its top block is a list.
    BadConfig { path: String, key: String },
    /// Neither the words nor the configuration give a path.
    NoPaths,
    /// The folder failed. The count of its faults rose in this call.
    Tree,
    OutOfMemory,
}

impl From<OutOfMemory> for ConfigStop {
    ghost from_gives = { λ _ e. e ≡ stops.OutOfMemory };

    fn from(_: OutOfMemory) -> Self {
        ConfigStop::OutOfMemory
    }
}

impl From<AllocError> for ConfigStop {
    ghost from_gives = { λ _ e. e ≡ stops.OutOfMemory };

    fn from(_: AllocError) -> Self {
        ConfigStop::OutOfMemory
    }
}

impl<T: Drop> From<AllocFailed<T>> for ConfigStop {
    ghost from_gives = { λ _ e. e ≡ stops.OutOfMemory };

    fn from(_: AllocFailed<T>) -> Self {
        ConfigStop::OutOfMemory
    }
}
