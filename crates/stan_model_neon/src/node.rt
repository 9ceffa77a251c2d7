//! What a NEON text holds.

use crate::text::Text;
use sqlite_items::Items;

/// A value of a NEON text.
#[derive(Debug, Drop)]
pub enum Node {
    Null,
    Bool(bool),
    Int(i64),
    Text(Text),
    List(Items<Node>),
    /// The pairs in the order of their lines. A key may stand more than once.
    Map(Items<(Text, Node)>),
}

/// What stands in a line behind its indentation. A value that is absent may stand in a deeper block, else it is null.
#[derive(Debug, Drop)]
pub enum Entry {
    /// Nothing that a line may hold.
    Broken,
    /// `- value`, or `-` alone.
    Item(Option<Node>),
    /// `- key: value`, or `- key:` alone.
    MapItem(Text, Option<Node>),
    /// `key: value`, or `key:` alone.
    Pair(Text, Option<Node>),
}
