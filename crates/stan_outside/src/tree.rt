//! A folder of files.

ghost use Rattle.std.specs.Prelude.{◌≡◌, ◌≤◌, ◌↔◌, ℕ, IfOk, IfSome, IsSome, IsErrOf, map, take, string_bytes, vec_len};
ghost use Rattle.std.specs.FinMap as finite;
ghost use Rattle.stan_outside.specs.Contents.{Contents};
ghost use Rattle.stan_outside.specs.Outside.{Lists, Rose, RoseBy, ArePaths};
ghost use Rattle.stan_outside.specs.declared.fail.Fail.TheVariants as fails;

use crate::Fail;
use std::alloc::Global;

/// A folder: files by their paths, which are listed and read, and may fail to be.
pub trait Tree {
    /// Whether it tells what it holds.
    ghost tells: { Self → Type 0 };

    /// What it holds, where it tells. No call changes it.
    ghost contents: { Self → Contents };

    /// How often the system has failed. It never falls.
    ghost faults: { Self → ℕ };

    /// How many calls of `list` were made, up to the end of the type.
    ghost listings: { Self → ℕ };

    /// How many calls of `read` were made, up to the end of the type.
    ghost reads: { Self → ℕ };

    /// No call fails, now and later.
    ghost never_fails: { Self → Type 0 };

    /// The path of each file once, in any order, relative to the folder. Links are not followed.
    fn list(&mut self, alloc: Global) -> Result<Vec<String>, Fail>
        ensures paths { IfOk result (λ paths. tells self.old → Lists (contents self.old) (map string_bytes paths.items)) }
        ensures listings { RoseBy 1 (listings self.old) (listings self.new) }
        ensures reads { reads self.new ≡ reads self.old }
        ensures tells { tells self.old ↔ tells self.new }
        ensures contents { contents self.new ≡ contents self.old }
        ensures faults { faults self.old ≤ faults self.new }
        ensures failed { IsErrOf result fails.Failed → Rose (faults self.old) (faults self.new) }
        ensures never_fails { never_fails self.old → (faults self.new ≡ faults self.old) × never_fails self.new × ¬ (IsErrOf result fails.Failed) };

    /// The first `most` bytes of the file at a path. A file that is gone is a failure of the system.
    fn read(&mut self, alloc: Global, path: &str, most: u32) -> Result<Vec<u8>, Fail>
        requires { tells self.old → IsSome (finite.get (contents self.old) path.now) }
        ensures bytes { IfOk result (λ bytes. tells self.old → IfSome (finite.get (contents self.old) path.now) (λ all. bytes.items ≡ take most all)) }
        ensures most { IfOk result (λ bytes. vec_len bytes ≤ most) }
        ensures listings { listings self.new ≡ listings self.old }
        ensures reads { RoseBy 1 (reads self.old) (reads self.new) }
        ensures tells { tells self.old ↔ tells self.new }
        ensures contents { contents self.new ≡ contents self.old }
        ensures faults { faults self.old ≤ faults self.new }
        ensures failed { IsErrOf result fails.Failed → Rose (faults self.old) (faults self.new) }
        ensures never_fails { never_fails self.old → (faults self.new ≡ faults self.old) × never_fails self.new × ¬ (IsErrOf result fails.Failed) };

    /// Where it tells, no part of a path is empty, `.` or `..`.
    ghost proper: { (tree : Self) → tells tree → ArePaths (contents tree) };
}
