//! Values: scalars and lists of them.

ghost use Rattle.std.specs.Prelude.{◌≡◌, ◌≤◌, ◌<◌, length, take, drop, option_map, if◌then◌else◌, slice_index, IfOk, IfSome};
ghost use Rattle.std.specs.Option.{option_and_then};
ghost use Rattle.stan_model_neon.specs.Characters.{is_quote};
ghost use Rattle.stan_neon_scalars.specs.Numbers.{plain, plain_front};
ghost use Rattle.stan_neon_scalars.specs.Quotes.{ends, unblanked, quoted};
ghost use Rattle.stan_neon_scalars.specs.Scalars.{text_read, before, scalar, items, list, value};
ghost use Rattle.stan_neon_scalars.specs.ReadNode.{read_node, read_nodes};

use crate::bytes::{blanks, byte_at, ends, is_quote};
use crate::plain::{plain, plain_len};
use crate::quotes::{quoted, text_of};
use sqlite_items::Items;
use stan_base::OutOfMemory;
use stan_model_neon::node::Node;
use std::alloc::Global;

// A node that was read, and the place behind it.
#[derive(Drop)]
struct ReadNode {
    node: Node,
    end: usize,
}

// The items of a list, and the place behind its end.
#[derive(Drop)]
struct ReadNodes {
    nodes: Items<Node>,
    end: usize,
}

// The text between the quotes at the front.
fn quoted_scalar(alloc: Global, bytes: &[u8]) -> Result<Option<ReadNode>, OutOfMemory>
    ensures value { IfOk result (λ read. option_map (read_node bytes.now) read ≡ option_and_then text_read (quoted bytes.now)) }
    ensures within { IfOk result (λ read. IfSome read (λ r. r.end ≤ length bytes.now)) }
{
    let Some(read) = quoted(alloc, bytes)? else {
        return Ok(None);
    };
    let Some(text) = text_of(alloc, read.bytes.as_slice())? else {
        return Ok(None);
    };
    Ok(Some(ReadNode {
        node: Node::Text(text),
        end: read.end,
    }))
}

// The plain text at the front.
fn plain_scalar(alloc: Global, listed: bool, bytes: &[u8]) -> Result<Option<ReadNode>, OutOfMemory>
    ensures value { IfOk result (λ read. option_map (read_node bytes.now) read ≡ before (plain (plain_front listed bytes.now)) (drop (length (plain_front listed bytes.now)) bytes.now)) }
    ensures within { IfOk result (λ read. IfSome read (λ r. r.end ≤ length bytes.now)) }
{
    let end = plain_len(listed, bytes);
    let Some(node) = plain(alloc, &bytes[..end])? else {
        return Ok(None);
    };
    Ok(Some(ReadNode { node, end }))
}

// The scalar at the front, in a list or up to the line's end.
#[tactic(auto, unfolding(crate::specs::Scalars::scalar))]
fn scalar(alloc: Global, listed: bool, bytes: &[u8]) -> Result<Option<ReadNode>, OutOfMemory>
    ensures value { IfOk result (λ read. option_map (read_node bytes.now) read ≡ scalar listed bytes.now) }
    ensures within { IfOk result (λ read. IfSome read (λ r. r.end ≤ length bytes.now)) }
{
    if is_quote(byte_at(bytes, 0)) {
        quoted_scalar(alloc, bytes)
    } else {
        plain_scalar(alloc, listed, bytes)
    }
}

// The place of the first byte from one on that is no blank.
fn unblanked(bytes: &[u8], at: usize) -> usize
    requires { at ≤ length bytes.now }
    ensures value { drop result bytes.now ≡ unblanked (drop at bytes.now) }
    ensures rises { at ≤ result }
    ensures within { result ≤ length bytes.now }
{
    at + blanks(&bytes[at..])
}

// One item or more of a list up to its `]`.
fn items(alloc: Global, bytes: &[u8], from: usize) -> Result<Option<ReadNodes>, OutOfMemory>
    requires { from ≤ length bytes.now }
    ensures value { IfOk result (λ read. option_map (read_nodes bytes.now) read ≡ items (drop from bytes.now)) }
    ensures within { IfOk result (λ read. IfSome read (λ r. r.end ≤ length bytes.now)) }
{
    let mut nodes = Items::new(alloc);
    let mut at = from;
    'items: loop {
        let Some(read) = scalar(alloc, true, &bytes[at..])? else {
            return Ok(None);
        };
        nodes.push(read.node)?;
        let behind = unblanked(bytes, at + read.end);
        let byte = byte_at(bytes, behind);
        if byte == b',' {
            at = unblanked(bytes, behind + 1);
        } else if byte == b']' {
            return Ok(Some(ReadNodes {
                nodes,
                end: behind + 1,
            }));
        } else {
            return Ok(None);
        }
    }
}

// What stands behind a `[`.
#[tactic(auto, unfolding(crate::specs::Scalars::list))]
fn list(alloc: Global, bytes: &[u8]) -> Result<Option<ReadNodes>, OutOfMemory>
    ensures value { IfOk result (λ read. option_map (read_nodes bytes.now) read ≡ list bytes.now) }
    ensures within { IfOk result (λ read. IfSome read (λ r. r.end ≤ length bytes.now)) }
{
    let at = unblanked(bytes, 0);
    if byte_at(bytes, at) == b']' {
        return Ok(Some(ReadNodes {
            nodes: Items::new(alloc),
            end: at + 1,
        }));
    }
    items(alloc, bytes, at)
}

/// A scalar or a list up to the line's end. None where neither stands there.
#[tactic(auto, unfolding(crate::specs::Scalars::value))]
pub fn value(alloc: Global, bytes: &[u8]) -> Result<Option<Node>, OutOfMemory>
    ensures { IfOk result (λ node. node ≡ value bytes.now) }
{
    if byte_at(bytes, 0) == b'[' {
        let Some(read) = list(alloc, &bytes[1..])? else {
            return Ok(None);
        };
        if ends(&bytes[1 + read.end..]) {
            return Ok(Some(Node::List(read.nodes)));
        }
    } else {
        let Some(read) = scalar(alloc, false, bytes)? else {
            return Ok(None);
        };
        if ends(&bytes[read.end..]) {
            return Ok(Some(read.node));
        }
    }
    Ok(None)
}
