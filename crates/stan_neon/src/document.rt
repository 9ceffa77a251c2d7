//! The tree of a text.

ghost use Rattle.std.specs.Prelude.{◌≡◌, IfOk, IfErr};
ghost use Rattle.stan_neon.specs.Texts.{IsTreeOf};
ghost use Rattle.stan_neon.specs.Stops.{IsCause};
ghost use Rattle.stan_neon.specs.declared.document.NeonStop.TheVariants as stops;

use crate::reader::Reader;
use stan_base::OutOfMemory;
use stan_model_neon::node::Node;
use std::alloc::Global;

/// Why a text was not read.
#[derive(Clone, Copy, Debug, PartialEq, Eq)]
pub enum NeonStop {
    /// No tree spells the text. The lines up to and with this one begin no text; it counts from 1. A text of more than 67,108,864
    /// bytes is bad at line 1.
    Bad { line: u32 },
    OutOfMemory,
}

impl From<OutOfMemory> for NeonStop {
    ghost from_gives = { λ _ e. e ≡ stops.OutOfMemory };

    fn from(_: OutOfMemory) -> Self {
        NeonStop::OutOfMemory
    }
}

/// The most bytes of a text.
pub const MOST_BYTES: usize = 67108864;

/// The tree of a text of any bytes. Each text has one, or is bad at one line.
pub fn read(alloc: Global, text: &[u8]) -> Result<Node, NeonStop>
    ensures tree { IfOk result (λ node. IsTreeOf text.now node) }
    ensures bad { IfErr result (λ stop. IsCause text.now stop) }
{
    if text.len() > MOST_BYTES {
        return Err(NeonStop::Bad { line: 1 });
    }
    let mut reader = Reader::new(alloc, text)?;
    let node = reader.tree(alloc)?;
    match reader.number() {
        Some(line) => Err(NeonStop::Bad { line }),
        None => Ok(node),
    }
}
