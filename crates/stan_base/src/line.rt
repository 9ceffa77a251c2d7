//! Lines of a source.

ghost use Rattle.std.specs.Prelude.{◌≡◌, ◌<◌, ◌≤◌, length};
ghost use Rattle.stan_base.specs.Bytes.{line_of};

/// The line of the byte at an offset, from 1: one more than the number of line feeds before it.
#[tactic(auto, unfolding(crate::specs::Bytes::line_of))]
pub fn line_at(source: &[u8], offset: u32) -> u32
    requires within { offset ≤ length source.now }
    requires below { offset < u32.MAX }
    ensures { result ≡ line_of source.now offset }
{
    let before = &source[..offset as usize];
    let feeds = before.iter().filter(|byte| **byte == b'\n').count();
    feeds as u32 + 1
}
