//! The files that were read.

ghost use Rattle.std.specs.Prelude.{◌≡◌, [], false, OnOk};
ghost use Rattle.stan_model_config.specs.Faults.{is_among};
ghost use Rattle.stan_model_config.specs.Files.{begun};

use indexmap::IndexSet;
use stan_base::OutOfMemory;
use std::alloc::Global;

/// The files that were read, in their order.
#[derive(Drop)]
pub(crate) struct ReadFiles {
    names: IndexSet<String>,
}

impl ReadFiles {
    ghost use Rattle.stan_config.specs.Views.{files_view};

    pub(crate) fn new(alloc: Global) -> ReadFiles
        ensures { files_view result ≡ [] }
    {
        ReadFiles {
            names: IndexSet::new(alloc),
        }
    }

    /// Whether a file was read.
    pub(crate) fn has(&self, file: &str) -> bool
        ensures { result ≡ is_among (files_view self.now) file.now }
    {
        self.names.contains(file)
    }

    /// Adds a file behind the others.
    pub(crate) fn add(&mut self, alloc: Global, file: &str) -> Result<(), OutOfMemory>
        requires { is_among (files_view self.old) file.now ≡ false }
        ensures { OnOk result (files_view self.new ≡ begun (files_view self.old) file.now) }
    {
        self.names.insert(String::from_str(alloc, file)?)?;
        Ok(())
    }
}
