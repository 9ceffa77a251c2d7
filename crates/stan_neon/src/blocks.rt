//! Blocks of lines, each line with what belongs to it.

ghost use Rattle.std.specs.Prelude.{◌≡◌, ◌⊎◌, ◌++◌, [], Some, IsTrue, OnOk, IfOk};
ghost use Rattle.stan_model_neon.specs.Outlines.{is_of, Items as ItemLines, Pairs as PairLines, node_of, items_of, pairs_of};
ghost use Rattle.stan_neon_lines.specs.Feed.{line_of};
ghost use Rattle.stan_neon.specs.Reader.{ahead, dashes_of, indentation_of, kind_is};
ghost use Rattle.stan_neon.specs.Reading.{read_lines as lines_at, read_outline};
ghost use Rattle.stan_model_neon.specs.Nodes.{Mapped};
ghost use Rattle.stan_neon.specs.Blocks.{value_under, map_under, item_under, pair_under, block_under, next_kind};

use crate::reader::{Kind, Opened, Place, Reader};
use sqlite_items::Items;
use stan_base::OutOfMemory;
use stan_model_neon::node::{Entry, Node};
use stan_model_neon::text::Text;
use stan_neon_lines::Line;
use std::alloc::Global;

impl<'a> Reader<'a> {
    // The items of a block.
    #[cycle(blocks)]
    fn items(
        &mut self,
        alloc: Global,
        place: Place<'a>,
        left: u32,
    ) -> Result<Items<Node>, OutOfMemory>
        ensures value { IfOk result (λ nodes. nodes ≡ items_of (lines_at left (dashes_of self.old) ItemLines (indentation_of place.entry) (ahead self.old)).0) }
        ensures lines { OnOk result (ahead self.new ≡ (lines_at left (dashes_of self.old) ItemLines (indentation_of place.entry) (ahead self.old)).1) }
        ensures dashes { OnOk result (dashes_of self.new ≡ dashes_of self.old) }
    {
        let mut nodes = Items::new(alloc);
        while let Some(line) = self.take(alloc, Kind::Items, place)? {
            let node = self.item(alloc, line, left)?;
            nodes.push(node)?;
        }
        Ok(nodes)
    }

    // Adds the pairs of a block.
    #[cycle(blocks)]
    fn pairs(
        &mut self,
        alloc: Global,
        before: Items<(Text, Node)>,
        place: Place<'a>,
        left: u32,
    ) -> Result<Items<(Text, Node)>, OutOfMemory>
        ensures value { IfOk result (λ pairs. pairs ≡ before ++ pairs_of (lines_at left (dashes_of self.old) PairLines (indentation_of place.entry) (ahead self.old)).0) }
        ensures lines { OnOk result (ahead self.new ≡ (lines_at left (dashes_of self.old) PairLines (indentation_of place.entry) (ahead self.old)).1) }
        ensures dashes { OnOk result (dashes_of self.new ≡ dashes_of self.old) }
    {
        let mut pairs = before;
        while let Some(line) = self.take(alloc, Kind::Pairs, place)? {
            let pair = self.pair(alloc, line, left)?;
            pairs.push(pair)?;
        }
        Ok(pairs)
    }

    // What an item holds, with what stands under it.
    #[cycle(blocks)]
    #[tactic(auto, unfolding(crate::specs::Blocks::item_under))]
    fn item(&mut self, alloc: Global, line: Line<'a>, left: u32) -> Result<Node, OutOfMemory>
        requires { IsTrue (is_of ItemLines line.entry) }
        ensures value { IfOk result (λ node. node ≡ (item_under left (dashes_of self.old) (line_of line.entry) (ahead self.old)).0) }
        ensures lines { OnOk result (ahead self.new ≡ (item_under left (dashes_of self.old) (line_of line.entry) (ahead self.old)).1) }
        ensures dashes { OnOk result (dashes_of self.new ≡ dashes_of self.old) }
    {
        let Line {
            number: _,
            indentation,
            entry,
        } = line;
        match entry {
            Entry::Item(value) => self.value(alloc, value, indentation, left),
            Entry::MapItem(key, value) => self.map(alloc, key, value, indentation, left),
            Entry::Pair(_, _) | Entry::Broken => Ok(Node::Null),
        }
    }

    // A pair, with what stands under it.
    #[cycle(blocks)]
    #[tactic(auto, unfolding(crate::specs::Blocks::pair_under))]
    fn pair(
        &mut self,
        alloc: Global,
        line: Line<'a>,
        left: u32,
    ) -> Result<(Text, Node), OutOfMemory>
        requires { IsTrue (is_of PairLines line.entry) }
        ensures value { IfOk result (λ pair. pair ≡ (pair_under left (dashes_of self.old) (line_of line.entry) (ahead self.old)).0) }
        ensures lines { OnOk result (ahead self.new ≡ (pair_under left (dashes_of self.old) (line_of line.entry) (ahead self.old)).1) }
        ensures dashes { OnOk result (dashes_of self.new ≡ dashes_of self.old) }
    {
        let Line {
            number: _,
            indentation,
            entry,
        } = line;
        match entry {
            Entry::Pair(key, value) => {
                let node = self.value(alloc, value, indentation, left)?;
                Ok((key, node))
            }
            Entry::Item(_) | Entry::MapItem(_, _) | Entry::Broken => {
                let text = String::new(alloc);
                Ok((Text::new(text), Node::Null))
            }
        }
    }

    // The map behind a dash, with its further pairs.
    #[cycle(blocks)]
    fn map(
        &mut self,
        alloc: Global,
        key: Text,
        value: Option<Node>,
        dash: &'a [u8],
        left: u32,
    ) -> Result<Node, OutOfMemory>
        ensures value { IfOk result (λ node. node ≡ (map_under left (dashes_of self.old) key value dash.now (ahead self.old)).0) }
        ensures lines { OnOk result (ahead self.new ≡ (map_under left (dashes_of self.old) key value dash.now (ahead self.old)).1) }
        ensures dashes { OnOk result (dashes_of self.new ≡ dashes_of self.old) }
    {
        self.open(dash)?;
        let node = self.value(alloc, value, dash, left)?;
        self.close();
        let mut pairs = Items::new(alloc);
        pairs.push((key, node))?;
        let place = Place {
            indentation: dash,
            behind_dash: true,
        };
        Ok(Node::Map(self.pairs(alloc, pairs, place, left)?))
    }

    // A value, or what stands in the deeper block in its place.
    #[cycle(blocks)]
    fn value(
        &mut self,
        alloc: Global,
        value: Option<Node>,
        above: &'a [u8],
        left: u32,
    ) -> Result<Node, OutOfMemory>
        ensures value { IfOk result (λ node. node ≡ (value_under left (dashes_of self.old) value above.now (ahead self.old)).0) }
        ensures lines { OnOk result (ahead self.new ≡ (value_under left (dashes_of self.old) value above.now (ahead self.old)).1) }
        ensures dashes { OnOk result (dashes_of self.new ≡ dashes_of self.old) }
    {
        match value {
            Some(node) => Ok(node),
            None => self.block(alloc, above, left),
        }
    }

    // The deeper block under a line. Null where none stands there.
    #[cycle(blocks)]
    #[tactic(auto, unfolding(crate::specs::Blocks::block_under))]
    fn block(&mut self, alloc: Global, above: &'a [u8], left: u32) -> Result<Node, OutOfMemory>
        ensures value { IfOk result (λ node. node ≡ node_of (block_under left (dashes_of self.old) above.now (ahead self.old)).0) }
        ensures lines { OnOk result (ahead self.new ≡ (block_under left (dashes_of self.old) above.now (ahead self.old)).1) }
        ensures dashes { OnOk result (dashes_of self.new ≡ dashes_of self.old) }
    {
        match self.opened(left, above) {
            Some(opened) => { self.lines(alloc, opened, left.saturating_sub(1)) }
            None => Ok(Node::Null),
        }
    }

    // The lines of a block of one kind and indentation. Null where the next line is none.
    #[cycle(blocks)]
    fn lines(&mut self, alloc: Global, opened: Opened<'a>, left: u32) -> Result<Node, OutOfMemory>
        requires { next_kind (ahead self.old) ≡ Some (kind_is opened.kind) }
        ensures value { IfOk result (λ node. node ≡ node_of (lines_at left (dashes_of self.old) (kind_is opened.entry.kind) opened.entry.indentation.now (ahead self.old)).0) }
        ensures lines { OnOk result (ahead self.new ≡ (lines_at left (dashes_of self.old) (kind_is opened.entry.kind) opened.entry.indentation.now (ahead self.old)).1) }
        ensures dashes { OnOk result (dashes_of self.new ≡ dashes_of self.old) }
    {
        let place = Place {
            indentation: opened.indentation,
            behind_dash: false,
        };
        match opened.kind {
            Kind::Items => {
                let nodes = self.items(alloc, place, left)?;
                if nodes.is_empty() {
                    return Ok(Node::Null);
                }
                Ok(Node::List(nodes))
            }
            Kind::Pairs => {
                let pairs = self.pairs(alloc, Items::new(alloc), place, left)?;
                if pairs.is_empty() {
                    return Ok(Node::Null);
                }
                Ok(Node::Map(pairs))
            }
        }
    }
}

impl<'a> Reader<'a> {
    /// What a text holds whose lines were not read yet, up to the line that belongs to nothing.
    #[tactic(auto, unfolding(crate::specs::Reading::read_outline))]
    pub(crate) fn tree(&mut self, alloc: Global) -> Result<Node, OutOfMemory>
        requires { dashes_of self.old ≡ [] }
        ensures value { IfOk result (λ node. ahead self.old ≡ [] ⊎ (node ≡ node_of (read_outline (ahead self.old)).0)) }
        ensures empty { IfOk result (λ node. ahead self.old ≡ [] → node ≡ Mapped []) }
        ensures lines { OnOk result (ahead self.new ≡ (read_outline (ahead self.old)).1) }
    {
        match self.first() {
            Some(first) => self.lines(alloc, first, 63),
            None => Ok(Node::Map(Items::new(alloc))),
        }
    }
}
