//! A sink over a writer of the standard library.

ghost use Rattle.std.specs.Prelude.{◌≡◌, ◌<◌, ◌≤◌, [], IfOk, OnOk, OnErr, length};
ghost use Rattle.std.specs.Io.KnownBytes.{WriteAppends};
ghost use Rattle.stan_outside.specs.Outside.{Rose};
ghost use Rattle.stan_outside.specs.StreamSink.{stream_writer, stream_faults};

use crate::{Failed, Sink};
use std::io::Write;

/// It tells nothing of what was written.
#[derive(Drop)]
pub struct StreamSink<W: Write> {
    writer: W,
    faults: u64,
}

impl<W: Write> StreamSink<W> {
    /// A sink over this writer, with no fault yet.
    pub fn new(writer: W) -> StreamSink<W>
        ensures writer { stream_writer result ≡ writer }
        ensures faults { stream_faults result ≡ 0 }
    {
        StreamSink { writer, faults: 0 }
    }
}

impl<W: Write> Sink for StreamSink<W> {
    ghost tells = { λ _. ⊥ };

    ghost written = { λ _. [] };

    ghost faults = { stream_faults };

    ghost room = { λ _. 0 };

    // An error of the writer is a fault, and so is a call that takes nothing.
    fn write(&mut self, piece: &[u8]) -> Result<usize, Failed>
        requires { 0 < length piece.now }
        ensures some { IfOk result (λ n. 0 < n) }
        ensures within { IfOk result (λ n. n ≤ length piece.now) }
        ensures passed_on { WriteAppends (W.contents (stream_writer self.old)) (W.contents (stream_writer self.new)) result piece.now }
        ensures ok { OnOk result (stream_faults self.new ≡ stream_faults self.old) }
        ensures faults { stream_faults self.old ≤ stream_faults self.new }
        ensures failed { OnErr result (Rose (stream_faults self.old) (stream_faults self.new)) }
    {
        match self.writer.write(piece) {
            Ok(taken) if taken > 0 => Ok(taken),
            _ => Err(Failed::counted(&mut self.faults)),
        }
    }
}
