//! Declarations and statements from the first token on, as many as there are.

ghost use Rattle.std.specs.Prelude.{◌≡◌, ◌<◌, ◌^◌, IfOk, length};
ghost use Rattle.stan_model_grammar.specs.Files as model;
ghost use Rattle.stan_stmt.specs.Fronts.{NextIs, IsFrontOf};

use crate::readers::{below, statement, value};
use sqlite_items::Items;
use stan_base::OutOfMemory;
use stan_model_grammar::token::{Token, TokenKind};
use stan_places::places::kind_at;
use stan_places::stop::Stop;
use stan_stmt_parts::depth::Depth;
use stan_stmt_parts::parser::{Parser, Reader};
use stan_stmt_tops::tops::read_top;
use stan_stmt_trees::Top;
use stan_stmt_values::reader::Nested;
use std::alloc::Global;

/// How deep productions may nest: enough for those of 200 levels.
pub const ROOM: u32 = 1406;

/// Declarations and statements from the first token on, and the place behind the last.
#[derive(Drop)]
pub struct Front {
    pub tops: Items<Top>,
    pub to: usize,
}

/// Whether such a token goes on with the statement before it.
fn goes_on(kind: TokenKind) -> bool
    ensures { result ≡ model.goes_on kind }
{
    match kind {
        TokenKind::Else => true,
        TokenKind::ElseIf => true,
        TokenKind::Catch => true,
        TokenKind::Finally => true,
        _ => false,
    }
}

/// The declaration or statement there, and the place behind it, if no token follows that goes on with it.
fn next_top<R: Reader>(
    parser: &Parser<'_, R>,
    depth: Depth,
    place: usize,
) -> Result<Option<(Top, usize)>, OutOfMemory>
    requires room { depth.room < R.room parser.now.reader }
    requires ready { R.ready parser.now.reader }
    ensures { IfOk result (NextIs parser.now.tokens.now (R.leaves parser.now.reader) depth place) }
{
    match read_top(parser, depth, place) {
        Err(Stop::Memory) => Err(OutOfMemory),
        Err(Stop::Absent) => Ok(None),
        Ok((top, to)) => {
            if goes_on(kind_at(parser.tokens, to)) {
                drop(top);
                return Ok(None);
            }
            Ok(Some((top, to)))
        }
    }
}

/// The longest front of these tokens, which have no comments and attributes.
pub fn read_front(alloc: Global, source: &[u8], tokens: &[Token]) -> Result<Front, OutOfMemory>
    requires few { length tokens.now < 2 ^ 32 }
    ensures { IfOk result (IsFrontOf source.now tokens.now) }
{
    let reader = Nested {
        source,
        room: ROOM + 1,
        expression: below,
        value,
        statement,
    };
    let parser = Parser {
        alloc,
        tokens,
        reader,
    };
    let depth = Depth {
        room: ROOM,
        levels: 0,
    };
    let mut tops = Items::new(alloc);
    let mut place = 0;
    loop {
        match next_top(&parser, depth, place)? {
            None => return Ok(Front { tops, to: place }),
            Some((top, to)) => {
                tops.push(top)?;
                place = to;
            }
        }
    }
}
