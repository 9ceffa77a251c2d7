//! The tree of a file, or the line from which on it has none.

ghost use Rattle.std.specs.Prelude.{◌≡◌, ◌<◌, ◌≤◌, ◌^◌, length};
ghost use Rattle.stan_base.specs.Bytes.{line_of};
ghost use Rattle.stan_stmt.specs.Answers.{Answers};
ghost use Rattle.stan_stmt.specs.declared.files.FileStop.TheVariants.{Memory};

use crate::fronts::read_front;
use sqlite_items::Items;
use stan_base::{OutOfMemory, line_at};
use stan_lexer::{code_tokens, comments};
use stan_model_grammar::token::Token;
use stan_places::places::token_at;
use stan_stmt_trees::FileTree;
use std::alloc::Global;

/// Why a file has no tree.
#[derive(Debug, Drop)]
pub enum FileStop {
    Memory,
    /// No tree spells its tokens, or one of its declarations and statements is deeper than 200 levels. `line` is that of the token
    /// behind the last declaration or statement that can be read.
    Broken(u32),
}

impl From<OutOfMemory> for FileStop {
    ghost from_gives = { λ _ e. e ≡ Memory };

    fn from(_: OutOfMemory) -> FileStop {
        FileStop::Memory
    }
}

/// The line of a token, which is the last where the source ends before it.
fn line_of_token(source: &[u8], token: Token) -> u32
    requires { length source.now ≤ 1048576 }
    ensures { result ≡ line_of source.now token.start }
{
    let last = source.len() as u32;
    if token.start <= last {
        line_at(source, token.start)
    } else {
        line_at(source, last)
    }
}

/// The tree of a file, from all the tokens of its source (`stan_lexer::lex`). Comments and attributes stand between any two tokens; the
/// tree holds the comments.
pub fn file(alloc: Global, source: &[u8], tokens: &[Token]) -> Result<FileTree, FileStop>
    requires small { length source.now ≤ 1048576 }
    requires few { length tokens.now < 2 ^ 32 }
    ensures { Answers source.now tokens.now result }
{
    let code = code_tokens(alloc, tokens)?;
    let front = read_front(alloc, source, &code)?;
    if let Some(token) = token_at(&code, front.to) {
        drop(front);
        return Err(FileStop::Broken(line_of_token(source, token)));
    }
    let comments = comments(alloc, tokens)?;
    Ok(FileTree {
        tops: front.tops,
        comments: Items::from_vec(comments),
    })
}
