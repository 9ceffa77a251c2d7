//! What is read of a row's text.

use crate::owners::owners;
use crate::sources::{opened, repeated, whole};
use stan_base::OutOfMemory;
use stan_lexer::{code_tokens, lex};
use stan_model_grammar::token::Token;
use stan_rows::Reading;
use stan_shown_files::file_text;
use stan_stmt::{FileStop, file};
use stan_stmt_trees::FileTree;
use std::alloc::Global;

/// The folders of rows.
pub const FOLDERS: [(&str, Kind); 12] = [
    ("plain", Kind::Tree),
    ("compound", Kind::Tree),
    ("declarations", Kind::Tree),
    ("members", Kind::Tree),
    ("tops", Kind::Tree),
    ("bodies", Kind::Tree),
    ("comments", Kind::Tree),
    ("owners", Kind::Owners),
    ("broken", Kind::Tree),
    ("whole", Kind::Whole),
    ("depths", Kind::Depth),
    ("deep", Kind::Deep),
];

#[derive(Clone, Copy)]
pub enum Kind {
    /// The tree of a file that holds a text behind the opening tag.
    Tree,
    /// The tree of a file.
    Whole,
    /// What the documentation comments of a file belong to that holds a text behind the opening tag.
    Owners,
    /// How deep a file is that holds a text behind the opening tag.
    Depth,
    /// How deep a file is in which parts stand many times.
    Deep,
}

impl Reading for Kind {
    fn reading(&self, alloc: Global, text: &str) -> Result<String, OutOfMemory> {
        match self {
            Kind::Tree => tree(alloc, &opened(alloc, text)?),
            Kind::Whole => tree(alloc, &whole(alloc, text)?),
            Kind::Owners => owned(alloc, &opened(alloc, text)?),
            Kind::Depth => depth(alloc, &opened(alloc, text)?),
            Kind::Deep => depth(alloc, &repeated(alloc, text)?),
        }
    }
}

// The tree of a source, or the line at which it has none, and its tokens.
fn read(alloc: Global, source: &str) -> Result<(Vec<Token>, Result<FileTree, u32>), OutOfMemory> {
    if source.len() > 1048576 {
        return Ok((Vec::new(alloc), Err(0)));
    }
    let tokens = lex(alloc, source.as_bytes())?;
    if tokens.len() > 1048577 {
        return Ok((tokens, Err(0)));
    }
    let found = match file(alloc, source.as_bytes(), &tokens) {
        Ok(tree) => Ok(tree),
        Err(FileStop::Broken(line)) => Err(line),
        Err(FileStop::Memory) => return Err(OutOfMemory),
    };
    Ok((tokens, found))
}

fn tree(alloc: Global, source: &str) -> Result<String, OutOfMemory> {
    let (tokens, found) = read(alloc, source)?;
    match found {
        Err(line) => broken(alloc, line),
        Ok(tree) => {
            let code = code_tokens(alloc, &tokens)?;
            whole_text(alloc, file_text(alloc, source, &code, &tree))
        }
    }
}

fn owned(alloc: Global, source: &str) -> Result<String, OutOfMemory> {
    let (_, found) = read(alloc, source)?;
    match found {
        Err(line) => broken(alloc, line),
        Ok(tree) => whole_text(alloc, owners(alloc, source, &tree)?),
    }
}

fn whole_text(alloc: Global, text: Option<String>) -> Result<String, OutOfMemory> {
    match text {
        Some(text) => Ok(text),
        None => Ok(String::from_str(alloc, "not whole")?),
    }
}

fn depth(alloc: Global, source: &str) -> Result<String, OutOfMemory> {
    let (_, found) = read(alloc, source)?;
    match found {
        Err(line) => broken(alloc, line),
        Ok(tree) => Ok(format!(in alloc; "{}", tree.depth())?),
    }
}

fn broken(alloc: Global, line: u32) -> Result<String, OutOfMemory> {
    Ok(format!(in alloc; "broken line {line}")?)
}
