//! What the report is written to.

ghost use Rattle.std.specs.Prelude.{◌≡◌, ◌<◌, ◌≤◌, ◌+◌, ◌++◌, ℕ, List, length, take, IfOk, IsOk, OnErr};
ghost use Rattle.stan_outside.specs.Outside.{Rose};

use crate::Failed;

/// Something that takes bytes, piece by piece, and may fail.
pub trait Sink {
    /// Whether it tells what was written.
    ghost tells: { Self → Type 0 };

    /// The bytes written so far, where it tells.
    ghost written: { Self → List ℕ };

    /// How often the system has failed. It never falls.
    ghost faults: { Self → ℕ };

    /// How many further bytes it surely takes.
    ghost room: { Self → ℕ };

    /// Takes a number of bytes from the front of a piece, at least one. An `Err` takes none.
    fn write(&mut self, piece: &[u8]) -> Result<usize, Failed>
        requires { 0 < length piece.now }
        ensures some { IfOk result (λ n. 0 < n) }
        ensures within { IfOk result (λ n. n ≤ length piece.now) }
        ensures written { IfOk result (λ n. tells self.old → written self.new ≡ written self.old ++ take n piece.now) }
        ensures kept { OnErr result (tells self.old → written self.new ≡ written self.old) }
        ensures tells { tells self.old → tells self.new }
        ensures faults { faults self.old ≤ faults self.new }
        ensures failed { OnErr result (Rose (faults self.old) (faults self.new)) }
        ensures room { length piece.now ≤ room self.old → IsOk result × (faults self.new ≡ faults self.old) }
        ensures rest { length piece.now ≤ room self.old → IfOk result (λ n. room self.new + n ≡ room self.old) };
}
