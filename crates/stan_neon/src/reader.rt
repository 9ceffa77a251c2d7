//! A text line by line, with the line that is read next.

ghost use Rattle.std.specs.Prelude.{◌≡◌, ◌≤◌, ◌∷◌, ◌++◌, ◌&&◌, [], ℕ, true, false, nat_le, length, map, List, IsTrue, OnOk, IfOk, MatchOption, option_map};
ghost use Rattle.std.specs.List.{list_any};
ghost use Rattle.std.specs.Str.{bytes_eq};
ghost use Rattle.stan_model_neon.specs.Outlines.{Line as ModelLine, is_of, kind_of, is_deeper, behind_dash, is_claimed, is_in_block};
ghost use Rattle.stan_neon_lines.specs.Lines.{contents, lines};
ghost use Rattle.stan_neon_lines.specs.Feed.{line_of};
ghost use Rattle.stan_neon.specs.Reader.{ahead, dashes_of, indentation_of, kind_is, opened_of, next_is_in, next_opens, next_number, first_of};

use stan_base::OutOfMemory;
use stan_model_neon::node::Entry;
use stan_neon_lines::{Feed, Line};
use std::alloc::Global;
use std::mem;

/// What the lines of a block are.
#[derive(Clone, Copy)]
pub(crate) enum Kind {
    Items,
    Pairs,
}

/// Where the lines of a block stand.
#[derive(Clone, Copy)]
pub(crate) struct Place<'a> {
    pub indentation: &'a [u8],
    /// Two spaces more, as the further pairs of a map behind a dash.
    pub behind_dash: bool,
}

/// A text whose lines are read one by one.
#[derive(Drop)]
pub(crate) struct Reader<'a> {
    feed: Feed<'a>,
    // The line that is read next.
    next: Option<Line<'a>>,
    // The indentations of the dashes that are open with a map, outermost first.
    dashes: Vec<&'a [u8]>,
}

/// What a deeper block begins with.
#[derive(Drop)]
pub(crate) struct Opened<'a> {
    pub kind: Kind,
    pub indentation: &'a [u8],
}

// Whether the line is of a kind.
fn is_of(kind: Kind, entry: &Entry) -> bool
    ensures { result ≡ is_of (kind_is kind) entry.now }
{
    match kind {
        Kind::Items => matches!(entry, Entry::Item(_) | Entry::MapItem(_, _)),
        Kind::Pairs => matches!(entry, Entry::Pair(_, _)),
    }
}

fn kind_of(entry: &Entry) -> Kind
    ensures { kind_is result ≡ kind_of entry.now }
{
    match entry {
        Entry::Item(_) | Entry::MapItem(_, _) | Entry::Broken => Kind::Items,
        Entry::Pair(_, _) => Kind::Pairs,
    }
}

// Whether an indentation begins with another one and is longer.
fn is_deeper(outer: &[u8], inner: &[u8]) -> bool
    ensures { result ≡ is_deeper outer.now inner.now }
{
    outer.len() < inner.len() && outer == &inner[..outer.len()]
}

// Whether an indentation is a dash's with two spaces more.
fn is_behind(indentation: &[u8], dash: &[u8]) -> bool
    ensures { result ≡ bytes_eq indentation.now (behind_dash dash.now) }
{
    let at = dash.len();
    if indentation.len() != at + 2 {
        return false;
    }
    if &indentation[..at] != dash {
        return false;
    }
    if indentation[at] != b' ' {
        return false;
    }
    indentation[at + 1] == b' '
}

impl<'a> Place<'a> {
    // Whether a line of this indentation stands there.
    fn holds(self, indentation: &[u8]) -> bool
        ensures { result ≡ bytes_eq indentation.now (indentation_of self.entry) }
    {
        if self.behind_dash {
            is_behind(indentation, self.indentation)
        } else {
            indentation == self.indentation
        }
    }
}

impl<'a> Reader<'a> {
    /// All lines of a text.
    pub(crate) fn new(alloc: Global, text: &'a [u8]) -> Result<Reader<'a>, OutOfMemory>
        requires { length text.now ≤ 67108864 }
        ensures ahead { IfOk result (λ reader. ahead reader ≡ contents 1 (lines text.now)) }
        ensures dashes { IfOk result (λ reader. dashes_of reader ≡ []) }
    {
        let mut feed = Feed::new(text);
        let next = feed.next(alloc)?;
        Ok(Reader {
            feed,
            next,
            dashes: Vec::new(alloc),
        })
    }

    // The next line, which is then behind.
    fn advance(&mut self, alloc: Global) -> Result<Option<Line<'a>>, OutOfMemory>
        ensures lines { IfOk result (λ line. MatchOption line (ahead self.old ≡ []) (λ l. ahead self.old ≡ line_of l ∷ ahead self.new)) }
        ensures dashes { OnOk result (dashes_of self.new ≡ dashes_of self.old) }
    {
        let following = self.feed.next(alloc)?;
        Ok(mem::replace(&mut self.next, following))
    }

    // Whether a pair of this indentation belongs to a dash that is open.
    fn is_behind_dash(&self, indentation: &[u8]) -> bool
        ensures { result ≡ list_any (λ dash. bytes_eq indentation.now (behind_dash dash)) (dashes_of self.now) }
    {
        for dash in self.dashes.iter() {
            if is_behind(indentation, dash) {
                return true;
            }
        }
        false
    }

    fn is_claimed(&self, line: &Line) -> bool
        ensures { result ≡ is_claimed (dashes_of self.now) (line_of line.now) }
    {
        is_of(Kind::Pairs, &line.entry) && self.is_behind_dash(line.indentation)
    }

    // Whether the next line stands in a block.
    fn is_in_block(&self, kind: Kind, place: Place) -> bool
        ensures { result ≡ next_is_in (dashes_of self.now) (kind_is kind) (indentation_of place.entry) (ahead self.now) }
    {
        match &self.next {
            Some(line) => {
                place.holds(line.indentation) && is_of(kind, &line.entry) && !self.is_claimed(line)
            }
            None => false,
        }
    }

    /// The next line where it stands in a block; it is then behind.
    pub(crate) fn take(
        &mut self,
        alloc: Global,
        kind: Kind,
        place: Place,
    ) -> Result<Option<Line<'a>>, OutOfMemory>
        ensures taken { IfOk result (λ line. MatchOption line (next_is_in (dashes_of self.old) (kind_is kind) (indentation_of place.entry) (ahead self.old) ≡ false) (λ l. IsTrue (is_in_block (dashes_of self.old) (kind_is kind) (indentation_of place.entry) (line_of l)))) }
        ensures lines { IfOk result (λ line. MatchOption line (ahead self.new ≡ ahead self.old) (λ l. ahead self.old ≡ line_of l ∷ ahead self.new)) }
        ensures dashes { OnOk result (dashes_of self.new ≡ dashes_of self.old) }
    {
        if self.is_in_block(kind, place) {
            self.advance(alloc)
        } else {
            Ok(None)
        }
    }

    /// Where a deeper block begins under a line, with the next line.
    pub(crate) fn opened(&self, left: u32, above: &[u8]) -> Option<Opened<'a>>
        ensures { option_map opened_of result ≡ next_opens left above.now (ahead self.now) }
    {
        match &self.next {
            Some(line) => {
                if left == 0 || !is_deeper(above, line.indentation) {
                    return None;
                }
                Some(Opened {
                    kind: kind_of(&line.entry),
                    indentation: line.indentation,
                })
            }
            None => None,
        }
    }

    /// Where the next line stands. None at the end.
    pub(crate) fn first(&self) -> Option<Opened<'a>>
        ensures { option_map opened_of result ≡ first_of (ahead self.now) }
    {
        match &self.next {
            Some(line) => Some(Opened {
                kind: kind_of(&line.entry),
                indentation: line.indentation,
            }),
            None => None,
        }
    }

    /// Opens a dash with a map.
    pub(crate) fn open(&mut self, dash: &'a [u8]) -> Result<(), OutOfMemory>
        ensures dashes { OnOk result (dashes_of self.new ≡ dashes_of self.old ++ dash.now ∷ []) }
        ensures lines { OnOk result (ahead self.new ≡ ahead self.old) }
    {
        self.dashes.push(dash)?;
        Ok(())
    }

    /// Closes the innermost dash that is open.
    pub(crate) fn close(&mut self)
        ensures dashes { (dashes : List (List ℕ)) (dash : List ℕ) → dashes_of self.old ≡ dashes ++ dash ∷ [] → dashes_of self.new ≡ dashes }
        ensures lines { ahead self.new ≡ ahead self.old }
    {
        self.dashes.pop();
    }

    /// The number of the next line. None at the end.
    pub(crate) fn number(&self) -> Option<u32>
        ensures { result ≡ next_number (ahead self.now) }
    {
        match &self.next {
            Some(line) => Some(line.number),
            None => None,
        }
    }
}
