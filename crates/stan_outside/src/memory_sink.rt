//! A sink over memory, which takes a stated number of bytes in pieces of a stated length.

ghost use Rattle.std.specs.Prelude.{◌≡◌, ◌<◌, ◌≤◌, ◌↔◌, ◌⊎◌, ◌+◌, ◌++◌, [], IfOk, IsErr, OnErr, ⊤, length, min, take, vec_len, vec_capacity};
ghost use Rattle.stan_outside.specs.Calls.{AreNew, IsToFail, IsNextCall, CountsFaults};

use crate::calls::Calls;
use crate::{Failed, Sink};
use stan_base::OutOfMemory;
use std::alloc::Global;

/// It tells what was written. Calls of `write` are numbered from 0.
#[derive(Drop)]
pub struct MemorySink {
    bytes: Vec<u8>,
    most: usize,
    piece: usize,
    calls: Calls,
    ghost has_room: { most ≤ vec_capacity bytes },
    ghost within: { vec_len bytes ≤ most },
    ghost some: { 0 < piece },
}

impl MemorySink {
    ghost use Rattle.stan_outside.specs.MemorySink.{sink_bytes, sink_calls, sink_left, sink_piece};

    /// A sink that takes `room` bytes in all, at most `piece` of them in a call. A call whose
    /// number is in `failing` fails, and so does one that finds no room. No call takes memory
    /// after this one.
    pub fn new(
        alloc: Global,
        room: usize,
        piece: usize,
        failing: Vec<u64>,
    ) -> Result<MemorySink, OutOfMemory>
        requires { 0 < piece }
        ensures bytes { IfOk result (λ sink. sink_bytes sink ≡ []) }
        ensures left { IfOk result (λ sink. sink_left sink ≡ room) }
        ensures piece { IfOk result (λ sink. sink_piece sink ≡ piece) }
        ensures calls { IfOk result (λ sink. AreNew failing.items (sink_calls sink)) }
    {
        let bytes = Vec::with_capacity(alloc, room)?;
        Ok(MemorySink {
            bytes,
            most: room,
            piece,
            calls: Calls::new(failing),
        })
    }

    /// The bytes written so far.
    pub fn bytes(&self) -> &[u8]
        ensures { result.now ≡ sink_bytes self.now }
    {
        self.bytes.as_slice()
    }

    /// How often a call failed, up to the end of the type.
    pub fn faults(&self) -> u64
        ensures { result ≡ (sink_calls self.now).faults }
    {
        self.calls.faults
    }
}

impl Sink for MemorySink {
    ghost use Rattle.stan_outside.specs.MemorySink.{sink_bytes, sink_calls, sink_left, sink_piece, sink_room};

    ghost tells = { λ _. ⊤ };

    ghost written = { sink_bytes };

    ghost faults = { λ sink. (sink_calls sink).faults };

    ghost room = { sink_room };

    fn write(&mut self, piece: &[u8]) -> Result<usize, Failed>
        requires { 0 < length piece.now }
        ensures fails { IsErr result ↔ (IsToFail (sink_calls self.old) ⊎ (sink_left self.old ≡ 0)) }
        ensures taken { IfOk result (λ n. n ≡ min (min (length piece.now) (sink_piece self.old)) (sink_left self.old)) }
        ensures written { IfOk result (λ n. sink_bytes self.new ≡ sink_bytes self.old ++ take n piece.now) }
        ensures kept { OnErr result (sink_bytes self.new ≡ sink_bytes self.old) }
        ensures left { sink_left self.new + length (sink_bytes self.new) ≡ sink_left self.old + length (sink_bytes self.old) }
        ensures piece { sink_piece self.new ≡ sink_piece self.old }
        ensures next { IsNextCall (sink_calls self.old) (sink_calls self.new) }
        ensures faults { CountsFaults (IsErr result) (sink_calls self.old) (sink_calls self.new) }
    {
        self.calls.begin()?;
        let left = self.most - self.bytes.len();
        let taken = piece.len().min(self.piece).min(left);
        if taken == 0 {
            return Err(self.calls.fault());
        }
        match self.bytes.extend_from_slice(&piece[..taken]) {
            Ok(()) => Ok(taken),
            Err(_) => unreachable!(),
        }
    }
}
