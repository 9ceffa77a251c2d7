//! The runs of places that tokens are made of.

ghost use Rattle.std.specs.Prelude.{◌≡◌, ◌+◌, ◌≤◌, ◌<◌, ◌^◌, length};
ghost use Rattle.stan_model_grammar.specs.Runs.{run_end};
ghost use Rattle.stan_lexer.specs.Runs.{passes};

use stan_model_grammar::token::TokenKind;
use stan_runs::bytes::{begins_identifier, byte_at, continues_identifier, is_blank, is_space};
use stan_runs::runs::{Places, run_end};

/// What the places of a run hold.
#[derive(Clone, Copy)]
pub enum Run {
    Blanks,
    /// Spaces and tabs.
    Spaces,
    Word,
    /// Words with `\` between them.
    Name,
    /// No line feed.
    Line,
    /// Neither a line feed nor `?>`.
    Remark,
    /// No `*/`.
    Comment,
}

// A byte of a name, or a `\` with an identifier behind it.
fn name_at(source: &[u8], at: usize) -> bool
    requires { at < 2 ^ 63 }
    ensures { result ≡ passes Run.Name source.now at }
{
    let byte = byte_at(source, at);
    continues_identifier(byte) || (byte == b'\\' && begins_identifier(byte_at(source, at + 1)))
}

// Neither a line feed nor `?>`.
fn remark_at(source: &[u8], at: usize) -> bool
    requires { at < 2 ^ 63 }
    ensures { result ≡ passes Run.Remark source.now at }
{
    let byte = byte_at(source, at);
    !(byte == b'\n' || (byte == b'?' && byte_at(source, at + 1) == b'>'))
}

// No `*/`.
fn comment_at(source: &[u8], at: usize) -> bool
    requires { at < 2 ^ 63 }
    ensures { result ≡ passes Run.Comment source.now at }
{
    !(byte_at(source, at) == b'*' && byte_at(source, at + 1) == b'/')
}

impl Places for Run {
    ghost holds = { λ run. passes run };

    fn holds(&self, source: &[u8], at: usize) -> bool {
        match self {
            Run::Blanks => is_blank(byte_at(source, at)),
            Run::Spaces => is_space(byte_at(source, at)),
            Run::Word => continues_identifier(byte_at(source, at)),
            Run::Name => name_at(source, at),
            Run::Line => byte_at(source, at) != b'\n',
            Run::Remark => remark_at(source, at),
            Run::Comment => comment_at(source, at),
        }
    }
}

/// The token that is the byte at a place and a run behind it, by its kind and its end.
pub fn byte_and_run(source: &[u8], kind: TokenKind, run: Run, at: usize) -> (TokenKind, usize)
    requires { at < length source.now }
    ensures value { result ≡ (kind, run_end source.now (passes run source.now) (at + 1)) }
    ensures rises { at < result.1 }
    ensures within { result.1 ≤ length source.now }
{
    (kind, run_end(source, run, at + 1))
}
