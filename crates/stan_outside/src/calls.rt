//! The calls of a form in memory, which counts them and lets some fail.

ghost use Rattle.std.specs.Prelude.{◌≡◌, ◌≤◌, ◌↔◌, IsErr, OnOk, OnErr};
ghost use Rattle.stan_outside.specs.Calls.{AreNew, IsToFail, IsNextCall};
ghost use Rattle.stan_outside.specs.Outside.{Rose};

use crate::Failed;

/// Calls are numbered from 0. Those whose number is among `failing` fail.
#[derive(Drop)]
pub struct Calls {
    pub failing: Vec<u64>,
    /// The number of the next call, which stands still at the end of the type.
    pub next: u64,
    pub faults: u64,
}

impl Calls {
    /// Calls of which those with these numbers fail. None was made yet.
    pub fn new(failing: Vec<u64>) -> Calls
        ensures { AreNew failing.items result }
    {
        Calls {
            failing,
            next: 0,
            faults: 0,
        }
    }

    /// Begins a call, which is a fault where it is one of those that fail.
    pub fn begin(&mut self) -> Result<(), Failed>
        ensures fails { IsErr result ↔ IsToFail self.old }
        ensures next { IsNextCall self.old self.new }
        ensures ok { OnOk result (self.new.faults ≡ self.old.faults) }
        ensures faults { self.old.faults ≤ self.new.faults }
        ensures failed { OnErr result (Rose self.old.faults self.new.faults) }
    {
        let fails = self.failing.contains(&self.next);
        self.next = self.next.saturating_add(1);
        if fails {
            return Err(self.fault());
        }
        Ok(())
    }

    /// Counts a fault.
    pub fn fault(&mut self) -> Failed
        ensures failing { self.new.failing.items ≡ self.old.failing.items }
        ensures next { self.new.next ≡ self.old.next }
        ensures faults { self.old.faults ≤ self.new.faults }
        ensures failed { Rose self.old.faults self.new.faults }
    {
        Failed::counted(&mut self.faults)
    }
}
