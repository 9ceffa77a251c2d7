//! A tree over memory, some of whose calls fail.

ghost use Rattle.std.specs.Prelude.{◌≡◌, ◌<◌, ◌≢◌, ⊤, [], ◌↔◌, IfOk, IfNone, IfSome, IsSome, IsErrOf, HoldsAt, length, map, take, string_bytes};
ghost use Rattle.std.specs.List.{AllWithin};
ghost use Rattle.std.specs.FinMap as finite;
ghost use Rattle.stan_outside.specs.Memory.{AreFiles, path_of, tree_contents};
ghost use Rattle.stan_outside.specs.Outside.{Lists, RoseBy};
ghost use Rattle.stan_outside.specs.Calls.{AreNew, IsToFail, IsNextCall, CountsFaults};
ghost use Rattle.stan_outside.specs.declared.fail.Fail.TheVariants as fails;

use crate::calls::Calls;
use crate::{Fail, Tree};
use std::alloc::{AllocError, Global};

/// It tells what it holds. Calls of `list` and `read` are numbered from 0.
#[derive(Drop)]
pub struct MemoryTree {
    files: Vec<(String, Vec<u8>)>,
    calls: Calls,
    listings: u64,
    reads: u64,
    // the place behind the file that was read last
    next: usize,
    ghost are_files: { AreFiles files.items },
}

impl MemoryTree {
    ghost use Rattle.stan_outside.specs.MemoryTree.{memory_contents, tree_calls, tree_listings, tree_reads};

    /// A tree of these files, each with its path. A call whose number is in `failing` fails.
    pub fn new(files: Vec<(String, Vec<u8>)>, failing: Vec<u64>) -> MemoryTree
        requires { AreFiles files.items }
        ensures contents { memory_contents result ≡ tree_contents files.items }
        ensures calls { AreNew failing.items (tree_calls result) }
        ensures listings { tree_listings result ≡ 0 }
        ensures reads { tree_reads result ≡ 0 }
    {
        MemoryTree {
            files,
            calls: Calls::new(failing),
            listings: 0,
            reads: 0,
            next: 0,
        }
    }

    /// How often a call failed, up to the end of the type.
    pub fn faults(&self) -> u64
        ensures { result ≡ (tree_calls self.now).faults }
    {
        self.calls.faults
    }

    /// How many calls of `list` were made, up to the end of the type.
    pub fn listings(&self) -> u64
        ensures { result ≡ tree_listings self.now }
    {
        self.listings
    }

    /// How many calls of `read` were made, up to the end of the type.
    pub fn reads(&self) -> u64
        ensures { result ≡ tree_reads self.now }
    {
        self.reads
    }
}

// The first place, from a given one on, of the file at a path.
fn find_from(files: &[(String, Vec<u8>)], first: usize, path: &str) -> Option<usize>
    ensures here { IfSome result (λ place. (place < length files.now) × HoldsAt (λ file. path_of file ≡ path.now) files.now place) }
    ensures none { IfNone result (AllWithin (λ file. path_of file ≢ path.now) files.now first (length files.now)) }
{
    for place in first..files.len() {
        if files[place].0.as_str() == path {
            return Some(place);
        }
    }
    None
}

// The place of the file at a path, which is sought from a given one on, and then from the front.
fn place_of(files: &[(String, Vec<u8>)], first: usize, path: &str) -> usize
    requires held { IsSome (finite.get (tree_contents files.now) path.now) }
    ensures within { result < length files.now }
    ensures here { HoldsAt (λ file. path_of file ≡ path.now) files.now result }
{
    if let Some(place) = find_from(files, first, path) {
        return place;
    }
    match find_from(files, 0, path) {
        Some(place) => place,
        None => unreachable!(),
    }
}

fn first_bytes(alloc: Global, bytes: &[u8], most: u32) -> Result<Vec<u8>, AllocError>
    ensures { IfOk result (λ first. first.items ≡ take most bytes.now) }
{
    let end = bytes.len().min(most as usize);
    bytes[..end].to_vec(alloc)
}

impl Tree for MemoryTree {
    ghost use Rattle.stan_outside.specs.MemoryTree.{memory_contents, tree_calls, tree_listings, tree_reads};

    ghost tells = { λ _. ⊤ };

    ghost contents = { memory_contents };

    ghost faults = { λ tree. (tree_calls tree).faults };

    ghost listings = { tree_listings };

    ghost reads = { tree_reads };

    ghost never_fails = { λ tree. (tree_calls tree).failing.items ≡ [] };

    ghost proper = { λ tree _. tree.are_files.proper };

    #[tactic(auto, using(crate::proofs::MemoryLemmas::lists_files))]
    fn list(&mut self, alloc: Global) -> Result<Vec<String>, Fail>
        ensures fails { IsErrOf result fails.Failed ↔ IsToFail (tree_calls self.old) }
        ensures paths { IfOk result (λ paths. Lists (memory_contents self.old) (map string_bytes paths.items)) }
        ensures listings { RoseBy 1 (tree_listings self.old) (tree_listings self.new) }
        ensures reads { tree_reads self.new ≡ tree_reads self.old }
        ensures contents { memory_contents self.new ≡ memory_contents self.old }
        ensures next { IsNextCall (tree_calls self.old) (tree_calls self.new) }
        ensures faults { CountsFaults (IsErrOf result fails.Failed) (tree_calls self.old) (tree_calls self.new) }
    {
        self.listings = self.listings.saturating_add(1);
        self.calls.begin()?;
        let mut paths = Vec::with_capacity(alloc, self.files.len())?;
        for (path, _) in &self.files {
            paths.push(path.clone()?)?;
        }
        Ok(paths)
    }

    fn read(&mut self, alloc: Global, path: &str, most: u32) -> Result<Vec<u8>, Fail>
        requires { IsSome (finite.get (memory_contents self.old) path.now) }
        ensures fails { IsErrOf result fails.Failed ↔ IsToFail (tree_calls self.old) }
        ensures bytes { IfOk result (λ bytes. IfSome (finite.get (memory_contents self.old) path.now) (λ all. bytes.items ≡ take most all)) }
        ensures listings { tree_listings self.new ≡ tree_listings self.old }
        ensures reads { RoseBy 1 (tree_reads self.old) (tree_reads self.new) }
        ensures contents { memory_contents self.new ≡ memory_contents self.old }
        ensures next { IsNextCall (tree_calls self.old) (tree_calls self.new) }
        ensures faults { CountsFaults (IsErrOf result fails.Failed) (tree_calls self.old) (tree_calls self.new) }
    {
        self.reads = self.reads.saturating_add(1);
        self.calls.begin()?;
        let place = place_of(&self.files, self.next, path);
        self.next = place + 1;
        Ok(first_bytes(alloc, &self.files[place].1, most)?)
    }
}
