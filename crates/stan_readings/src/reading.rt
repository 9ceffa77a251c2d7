//! What is read of a row's text.

use crate::{names, outside, tokens, trees};
use stan_base::OutOfMemory;
use stan_rows::Reading;
use std::alloc::Global;

/// The folders of rows, each with what is read of their texts.
pub const FOLDERS: [(&str, Kind); 18] = [
    ("tokens", Kind::Tokens),
    ("code_tokens", Kind::CodeTokens),
    ("comments", Kind::Comments),
    ("pieces", Kind::Pieces),
    ("text_values", Kind::TextValues),
    ("integer_values", Kind::IntegerValues),
    ("trees", Kind::Trees),
    ("depths", Kind::Depths),
    ("nested", Kind::Nested),
    ("exits", Kind::Exits),
    ("lines", Kind::Lines),
    ("folds", Kind::Folds),
    ("resolved", Kind::Resolved),
    ("asks", Kind::Asks),
    ("index", Kind::Index),
    ("paths", Kind::Paths),
    ("sinks", Kind::Sinks),
    ("folders", Kind::Folders),
];

#[derive(Clone, Copy)]
pub enum Kind {
    /// The tokens of a source.
    Tokens,
    /// Its tokens without comments and attributes.
    CodeTokens,
    /// Its comments.
    Comments,
    /// How many sources of some pieces are read alike by two programs.
    Pieces,
    /// The bytes that the token of a text means.
    TextValues,
    /// The number that the token of an integer means.
    IntegerValues,
    /// The tree of an expression.
    Trees,
    /// How deep an expression is.
    Depths,
    /// How deep an expression is that is put together from parts.
    Nested,
    /// Whether an `exit` ends the program.
    Exits,
    /// The line of a place.
    Lines,
    /// Whether two names are the same.
    Folds,
    /// The full name that a written one means.
    Resolved,
    /// What is asked for by a name.
    Asks,
    /// What an index of declarations answers.
    Index,
    /// Whether paths are proper.
    Paths,
    /// What a sink takes.
    Sinks,
    /// What a folder gives.
    Folders,
}

impl Reading for Kind {
    fn reading(&self, alloc: Global, text: &str) -> Result<String, OutOfMemory> {
        match self {
            Kind::Tokens => tokens::tokens(alloc, text),
            Kind::CodeTokens => tokens::tokens_of_code(alloc, text),
            Kind::Comments => tokens::comments_of(alloc, text),
            Kind::Pieces => tokens::pieces(alloc, text),
            Kind::TextValues => tokens::value_of_text(alloc, text),
            Kind::IntegerValues => tokens::value_of_integer(alloc, text),
            Kind::Trees => trees::tree(alloc, text),
            Kind::Depths => trees::depth(alloc, text),
            Kind::Nested => trees::nested(alloc, text),
            Kind::Exits => trees::exit(alloc, text),
            Kind::Lines => names::line(alloc, text),
            Kind::Folds => names::folds(alloc, text),
            Kind::Resolved => names::resolved_name(alloc, text),
            Kind::Asks => names::ask(alloc, text),
            Kind::Index => names::answer(alloc, text),
            Kind::Paths => outside::paths(alloc, text),
            Kind::Sinks => outside::writes(alloc, text),
            Kind::Folders => outside::reads(alloc, text),
        }
    }
}
