//! The lines of a source, for many look-ups: an offset's line is found in logarithmic time.

ghost use Rattle.std.specs.Prelude.{◌≡◌, ◌<◌, ◌^◌, ℕ, List, IfOk, length, vec_len};
ghost use Rattle.stan_base.specs.Bytes.{line_of};
ghost use Rattle.stan_analyse.specs.Lines.{AreFeeds};

use stan_base::OutOfMemory;
use std::alloc::Global;

/// Where the lines of a source end, for many look-ups of a line.
#[derive(Drop)]
pub struct LineFeeds {
    /// The places of the line feeds, in order.
    pub places: Vec<u32>,
}

impl LineFeeds {
    /// The line feeds of a source.
    pub fn new(alloc: Global, source: &[u8]) -> Result<LineFeeds, OutOfMemory>
        requires { length source.now < 2 ^ 32 }
        ensures { IfOk result (λ feeds. AreFeeds source.now feeds) }
    {
        let mut places = Vec::new(alloc);
        for (place, byte) in source.iter().enumerate() {
            if *byte == b'\n' {
                places.push(place as u32)?;
            }
        }
        Ok(LineFeeds { places })
    }

    /// The line of the byte at an offset, from 1: one more than the number of line feeds before it.
    pub fn line_at(&self, offset: u32) -> u32
        requires few { vec_len self.now.places < u32.MAX }
        ensures { (source : List ℕ) → AreFeeds source self.now → result ≡ line_of source offset }
    {
        self.places.partition_point(|place| *place < offset) as u32 + 1
    }
}
