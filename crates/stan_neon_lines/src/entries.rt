//! What stands in a line behind its indentation.

ghost use Rattle.std.specs.Prelude.{◌≡◌, ◌≤◌, IsTrue, length, IfOk, option_map};
ghost use Rattle.stan_neon_lines.specs.Entries.{behind_key, pair, item, begins_item, entry};
ghost use Rattle.stan_neon_lines.specs.Pair.{pair_of, behind_of};

use stan_base::OutOfMemory;
use stan_model_neon::node::{Entry, Node};
use stan_model_neon::text::Text;
use stan_neon_scalars::{blanks, byte_at, ends, is_blank, key, value};
use std::alloc::Global;

// What stands behind the `:` of a key.
#[derive(Drop)]
enum Behind {
    Nothing,
    Value(Node),
    Broken,
}

// A key, and its value where one stands in the line.
#[derive(Drop)]
struct Pair {
    key: Text,
    value: Option<Node>,
}

#[tactic(auto, unfolding(crate::specs::Entries::behind_key))]
fn behind_key(alloc: Global, bytes: &[u8]) -> Result<Behind, OutOfMemory>
    ensures { IfOk result (λ behind. behind_of behind ≡ behind_key bytes.now) }
{
    if ends(bytes) {
        return Ok(Behind::Nothing);
    }
    if !is_blank(byte_at(bytes, 0)) {
        return Ok(Behind::Broken);
    }
    match value(alloc, &bytes[blanks(bytes)..])? {
        Some(node) => Ok(Behind::Value(node)),
        None => Ok(Behind::Broken),
    }
}

// A key with its `:`, and a value where one stands in this line.
#[tactic(auto, unfolding(crate::specs::Entries::pair))]
fn read_pair(alloc: Global, bytes: &[u8]) -> Result<Option<Pair>, OutOfMemory>
    ensures { IfOk result (λ read. option_map pair_of read ≡ pair bytes.now) }
{
    let Some(read) = key(alloc, bytes)? else {
        return Ok(None);
    };
    if byte_at(bytes, read.end) != b':' {
        return Ok(None);
    }
    let key = read.text;
    match behind_key(alloc, &bytes[read.end + 1..])? {
        Behind::Nothing => Ok(Some(Pair { key, value: None })),
        Behind::Value(node) => Ok(Some(Pair {
            key,
            value: Some(node),
        })),
        Behind::Broken => Ok(None),
    }
}

// What stands behind a dash. What can be read as a pair is no scalar.
#[tactic(auto, unfolding(crate::specs::Entries::item))]
fn item(alloc: Global, bytes: &[u8]) -> Result<Entry, OutOfMemory>
    ensures { IfOk result (λ read. read ≡ item bytes.now) }
{
    if ends(bytes) {
        return Ok(Entry::Item(None));
    }
    if !is_blank(byte_at(bytes, 0)) {
        return Ok(Entry::Broken);
    }
    let inside = &bytes[blanks(bytes)..];
    if let Some(read) = read_pair(alloc, inside)? {
        return Ok(Entry::MapItem(read.key, read.value));
    }
    match value(alloc, inside)? {
        Some(node) => Ok(Entry::Item(Some(node))),
        None => Ok(Entry::Broken),
    }
}

// Whether a dash stands there, and not a key that begins with `-`.
#[tactic(auto, unfolding(crate::specs::Entries::begins_item))]
fn begins_item(bytes: &[u8]) -> bool
    ensures value { result ≡ begins_item bytes.now }
    ensures within { IsTrue result → 1 ≤ length bytes.now }
{
    byte_at(bytes, 0) == b'-' && (ends(&bytes[1..]) || is_blank(byte_at(bytes, 1)))
}

/// What stands in a line behind its indentation.
#[tactic(auto, unfolding(crate::specs::Entries::entry))]
pub fn entry(alloc: Global, bytes: &[u8]) -> Result<Entry, OutOfMemory>
    ensures { IfOk result (λ read. read ≡ entry bytes.now) }
{
    if begins_item(bytes) {
        return item(alloc, &bytes[1..]);
    }
    match read_pair(alloc, bytes)? {
        Some(read) => Ok(Entry::Pair(read.key, read.value)),
        None => Ok(Entry::Broken),
    }
}
