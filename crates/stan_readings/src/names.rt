//! What is read of lines and names, and what an index answers, as text.

use stan_base::{AskKind, Name, OutOfMemory, line_at};
use stan_names::Names;
use stan_rows::{number, parts, plain, text_of, words};
use stan_table::{Ask, Exported, FunctionNode, Index};
use std::alloc::Global;

/// The line of a place in a text, before which it stands.
pub fn line(alloc: Global, text: &str) -> Result<String, OutOfMemory> {
    let (place, text) = text.split_once(' ').unwrap_or((text, ""));
    let source = plain(alloc, text)?;
    let place = number(place);
    if place as usize > source.len() || place == u32::MAX {
        return Ok(String::from_str(alloc, "outside")?);
    }
    Ok(format!(in alloc; "{}", line_at(source.as_bytes(), place))?)
}

/// Whether two names are the same but for the case of their letters.
pub fn folds(alloc: Global, text: &str) -> Result<String, OutOfMemory> {
    let (first, second) = parts(text);
    let first = Name::new(alloc, first.as_bytes())?;
    let second = Name::new(alloc, second.as_bytes())?;
    let told = if first.folds_to(&second) {
        "same"
    } else {
        "another"
    };
    Ok(String::from_str(alloc, told)?)
}

/// The full name that a written one means outside all namespaces.
pub fn resolved_name(alloc: Global, text: &str) -> Result<String, OutOfMemory> {
    let names = Names::new(alloc, b"")?;
    let name = names.class(alloc, text.as_bytes())?;
    text_of(alloc, name.bytes())
}

fn kind_of(word: &str) -> AskKind {
    match word {
        "class" => AskKind::Class,
        "constant" => AskKind::Constant,
        _ => AskKind::Function,
    }
}

fn word_of(kind: AskKind) -> &'static str {
    match kind {
        AskKind::Class => "class",
        AskKind::Constant => "constant",
        AskKind::Function => "function",
    }
}

fn ask_of(alloc: Global, kind: &str, name: &str) -> Result<Ask, OutOfMemory> {
    let name = Name::new(alloc, name.as_bytes())?;
    Ask::new(alloc, kind_of(kind), &name)
}

/// The question for a name, as its copy shows it.
pub fn ask(alloc: Global, text: &str) -> Result<String, OutOfMemory> {
    let (kind, name) = text.split_once(' ').unwrap_or((text, ""));
    let ask = ask_of(alloc, kind, name)?.copy(alloc)?;
    let mut out = String::from_str(alloc, word_of(ask.kind))?;
    let name = text_of(alloc, ask.name.bytes())?;
    if !name.is_empty() {
        out.push(' ')?;
        out.push_str(&name)?;
    }
    Ok(out)
}

// An index of functions of these names, at most a thousand.
fn index_of(alloc: Global, names: &[String]) -> Result<Index, OutOfMemory> {
    let mut nodes = Vec::new(alloc);
    for name in names {
        let name = Name::new(alloc, name.as_bytes())?;
        nodes.push(Exported::Function(FunctionNode { name }))?;
    }
    nodes.truncate(1000);
    Index::build(alloc, nodes)
}

fn node_name(alloc: Global, index: &Index, place: u32) -> Result<String, OutOfMemory> {
    if place < index.len() {
        text_of(alloc, index.node(place).name().bytes())
    } else {
        Ok(String::from_str(alloc, "none")?)
    }
}

fn found_place(
    alloc: Global,
    index: &Index,
    kind: &str,
    name: &str,
) -> Result<String, OutOfMemory> {
    let ask = ask_of(alloc, kind, name)?;
    match index.find(&ask) {
        Some(place) => Ok(format!(in alloc; "{place}")?),
        None => Ok(String::from_str(alloc, "none")?),
    }
}

/// What an index of functions answers to a question.
pub fn answer(alloc: Global, text: &str) -> Result<String, OutOfMemory> {
    let (names, question) = parts(text);
    let index = index_of(alloc, &words(alloc, names)?)?;
    let (kind, name) = question.split_once(' ').unwrap_or((question, ""));
    match kind {
        "length" => Ok(format!(in alloc; "{}", index.len())?),
        "node" => node_name(alloc, &index, number(name)),
        _ => found_place(alloc, &index, kind, name),
    }
}
