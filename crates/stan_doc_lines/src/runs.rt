//! The runs of places that comments and their tags are made of.

ghost use Rattle.std.specs.Prelude.{◌≡◌, ◌<◌, ◌^◌};
ghost use Rattle.stan_doc_lines.specs.Runs.{passes};

use stan_runs::bytes::{begins_identifier, byte_at, continues_identifier, is_blank};
use stan_runs::runs::Places;

/// What the places of a run hold.
#[derive(Clone, Copy)]
pub enum Run {
    Blanks,
    /// An identifier's bytes.
    Word,
    /// The word of a tag.
    TagWord,
    /// A name, where `-` may stand in its words.
    Name,
}

// A byte of a name, or a `\` with an identifier behind it.
fn name_at(source: &[u8], at: usize) -> bool
    requires { at < 2 ^ 63 }
    ensures { result ≡ passes Run.Name source.now at }
{
    let byte = byte_at(source, at);
    continues_identifier(byte)
        || byte == b'-'
        || (byte == b'\\' && begins_identifier(byte_at(source, at + 1)))
}

// A byte of the word of a tag.
fn tag_word_at(source: &[u8], at: usize) -> bool
    ensures { result ≡ passes Run.TagWord source.now at }
{
    let byte = byte_at(source, at);
    continues_identifier(byte) || byte == b'-' || byte == b'\\'
}

impl Places for Run {
    ghost holds = { λ run. passes run };

    fn holds(&self, source: &[u8], at: usize) -> bool {
        match self {
            Run::Blanks => is_blank(byte_at(source, at)),
            Run::Word => continues_identifier(byte_at(source, at)),
            Run::TagWord => tag_word_at(source, at),
            Run::Name => name_at(source, at),
        }
    }
}
