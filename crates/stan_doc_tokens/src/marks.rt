//! Marks, and tables of words and marks.

ghost use Rattle.std.specs.Prelude.{◌≡◌, ◌≤◌, ◌<◌, nat_eq, length, map};
ghost use Rattle.std.specs.List.{starts_with};
ghost use Rattle.stan_model_doc.specs.Tokens.{kind_of_word, mark_among, doc_mark};
ghost use Rattle.stan_doc_tokens.specs.Tables.{row_of};

use stan_model_doc::token::{DOC_MARKS, DocKind};
use stan_runs::bytes::byte_at;

// Whether bytes begin with a mark. Most marks of a table differ in the first byte.
#[tactic(auto, using(crate::proofs::TableLemmas::starts_with_apart))]
fn begins_with(rest: &[u8], mark: &[u8]) -> bool
    ensures { result ≡ starts_with nat_eq rest.now mark.now }
{
    if !mark.is_empty() && byte_at(rest, 0) != byte_at(mark, 0) {
        return false;
    }
    rest.starts_with(mark)
}

// The first row that stands at a place, by its kind and its end, or the byte there.
fn mark_among(rows: &[(&str, DocKind)], text: &[u8], at: usize) -> (DocKind, usize)
    requires { at < length text.now }
    ensures value { result ≡ mark_among (map row_of rows.now) text.now at }
    ensures within { result.1 ≤ length text.now }
{
    let rest = &text[at..];
    for (row, kind) in rows {
        if begins_with(rest, row.as_bytes()) {
            return (*kind, at + row.len());
        }
    }
    (DocKind::Other, at + 1)
}

/// The longest mark at a place, by its kind and its end. Where none stands it is the byte there.
#[tactic(auto, using(crate::proofs::TableLemmas::mark_rises), unfolding(stan_model_doc::specs::Tokens::doc_mark, stan_model_doc::specs::Tokens::doc_marks))]
pub fn doc_mark(text: &[u8], at: usize) -> (DocKind, usize)
    requires { at < length text.now }
    ensures value { result ≡ doc_mark text.now at }
    ensures rises { at < result.1 }
    ensures within { result.1 ≤ length text.now }
{
    mark_among(&DOC_MARKS, text, at)
}

/// The kind that the rows give exactly these bytes, or another one.
pub fn kind_of_word(rows: &[(&str, DocKind)], other: DocKind, word: &[u8]) -> DocKind
    ensures { result ≡ kind_of_word (map row_of rows.now) other word.now }
{
    for (row, kind) in rows {
        if word == row.as_bytes() {
            return *kind;
        }
    }
    other
}
