//! The reading of a file: its tree, or why it cannot be read.

ghost use Rattle.std.specs.Prelude.{IfOk};
ghost use Rattle.stan_model_readings.specs.Reading.{IsText, IsReading};
ghost use Rattle.stan_analyse.specs.Reading.{reading_of};

use bstr::ByteSlice;
use stan_base::OutOfMemory;
use stan_lexer::lex;
use stan_stmt::{FileStop, file};
use stan_stmt_trees::FileTree;
use std::alloc::Global;

/// The most bytes of a file that can be read.
pub const LARGEST_SOURCE: usize = 1_048_576;

/// A file that was read, or the reason why it cannot be read.
#[derive(Drop)]
pub enum Reading {
    Readable(FileTree),
    TooLarge,
    NotUtf8,
    /// With the line of the fault.
    Broken(u32),
}

// The reading of a text.
fn read_text(alloc: Global, source: &[u8]) -> Result<Reading, OutOfMemory>
    requires { IsText source.now }
    ensures { IfOk result (λ reading. IsReading source.now (reading_of reading)) }
{
    let tokens = lex(alloc, source)?;
    match file(alloc, source, tokens.as_slice()) {
        Ok(tree) => Ok(Reading::Readable(tree)),
        Err(FileStop::Memory) => Err(OutOfMemory),
        Err(FileStop::Broken(line)) => Ok(Reading::Broken(line)),
    }
}

/// The reading of a source of any length. Size is looked at first, then UTF-8.
pub fn read(alloc: Global, source: &[u8]) -> Result<Reading, OutOfMemory>
    ensures { IfOk result (λ reading. IsReading source.now (reading_of reading)) }
{
    if source.len() > LARGEST_SOURCE {
        return Ok(Reading::TooLarge);
    }
    if !source.is_utf8() {
        return Ok(Reading::NotUtf8);
    }
    read_text(alloc, source)
}
