//! What folders and sinks in memory do, as text.

ghost use Rattle.std.specs.Prelude.{◌≡◌, ◌<◌, length, map, string_bytes};
ghost use Rattle.stan_outside.specs.MemoryTree.{memory_contents};
ghost use Rattle.stan_outside.specs.Outside.{Lists};

use stan_base::OutOfMemory;
use stan_outside::{MemorySink, MemoryTree, Sink, Tree, are_files};
use stan_rows::{number, parts, text_of};
use std::alloc::Global;

type Entry = (String, Vec<u8>);

fn push_entry(
    alloc: Global,
    entries: &mut Vec<Entry>,
    path: &str,
    text: &str,
) -> Result<(), OutOfMemory> {
    let bytes = text.as_bytes().to_vec(alloc)?;
    entries.push((String::from_str(alloc, path)?, bytes))?;
    Ok(())
}

/// Whether the paths of two files are proper and in order.
pub fn paths(alloc: Global, text: &str) -> Result<String, OutOfMemory> {
    let (first, second) = parts(text);
    let mut entries = Vec::new(alloc);
    push_entry(alloc, &mut entries, first, "")?;
    push_entry(alloc, &mut entries, second, "")?;
    let told = if are_files(&entries) {
        "proper"
    } else {
        "not proper"
    };
    Ok(String::from_str(alloc, told)?)
}

// The numbers of the calls that fail, with `,` between them.
fn failing(alloc: Global, text: &str) -> Result<Vec<u64>, OutOfMemory> {
    let mut numbers = Vec::new(alloc);
    for word in text.split(',') {
        if let Ok(number) = word.parse::<u64>() {
            numbers.push(number)?;
        }
    }
    Ok(numbers)
}

fn push_outcome(out: &mut String, outcome: &str) -> Result<(), OutOfMemory> {
    if !out.is_empty() {
        out.push_str(" | ")?;
    }
    out.push_str(outcome)?;
    Ok(())
}

// ---- sinks

fn push_write(out: &mut String, sink: &mut MemorySink, piece: &str) -> Result<(), OutOfMemory> {
    if piece.is_empty() {
        return Ok(());
    }
    let alloc = *out.allocator();
    match sink.write(piece.as_bytes()) {
        Ok(taken) => push_outcome(out, &format!(in alloc; "{taken}")?),
        Err(_) => push_outcome(out, "failed"),
    }
}

// A sink with so much room, which takes so many bytes in a call.
fn sink_of(alloc: Global, form: &str) -> Result<MemorySink, OutOfMemory> {
    let (room, rest) = form.split_once(' ').unwrap_or((form, ""));
    let (piece, fails) = rest.split_once(' ').unwrap_or((rest, ""));
    let piece = number(piece).max(1);
    let fails = failing(alloc, fails)?;
    MemorySink::new(alloc, number(room) as usize, piece as usize, fails)
}

/// What a sink takes of pieces, how many calls failed, and what it then holds.
pub fn writes(alloc: Global, text: &str) -> Result<String, OutOfMemory> {
    let (form, pieces) = parts(text);
    let mut sink = sink_of(alloc, form)?;
    let mut out = String::new(alloc);
    for piece in pieces.split('|') {
        push_write(&mut out, &mut sink, piece.trim())?;
    }
    push_outcome(&mut out, &format!(in alloc; "{} faults", sink.faults())?)?;
    push_outcome(&mut out, &text_of(alloc, sink.bytes())?)?;
    Ok(out)
}

// ---- folders

// The bytes of the file of a listed path, or `failed`.
fn push_read(
    out: &mut String,
    tree: &mut MemoryTree,
    paths: &[String],
    ask: &str,
) -> Result<(), OutOfMemory>
    requires { Lists (memory_contents tree.old) (map string_bytes paths.now) }
    ensures { memory_contents tree.new ≡ memory_contents tree.old }
{
    let alloc = *out.allocator();
    let (place, most) = ask.split_once(' ').unwrap_or((ask, ""));
    let place = number(place) as usize;
    if place >= paths.len() {
        return push_outcome(out, "none");
    }
    let path = &paths[place];
    match tree.read(alloc, path, number(most)) {
        Ok(bytes) => push_outcome(out, &text_of(alloc, &bytes)?),
        Err(_) => push_outcome(out, "failed"),
    }
}

fn entries(alloc: Global, text: &str) -> Result<Vec<Entry>, OutOfMemory> {
    let mut entries = Vec::new(alloc);
    for word in text.split(' ') {
        let (path, text) = word.split_once('=').unwrap_or((word, ""));
        push_entry(alloc, &mut entries, path, text)?;
    }
    Ok(entries)
}

fn push_two_reads(out: &mut String, tree: &mut MemoryTree, asks: &str) -> Result<(), OutOfMemory> {
    let alloc = *out.allocator();
    let Ok(paths) = tree.list(alloc) else {
        return push_outcome(out, "failed");
    };
    for path in &paths {
        push_outcome(out, path)?;
    }
    let (first, second) = asks.split_once(", ").unwrap_or((asks, ""));
    push_read(out, tree, &paths, first)?;
    push_read(out, tree, &paths, second)
}

/// What a folder lists, what two reads give, and how many calls failed.
pub fn reads(alloc: Global, text: &str) -> Result<String, OutOfMemory> {
    let (files, rest) = parts(text);
    let (fails, asks) = parts(rest);
    let entries = entries(alloc, files)?;
    if !are_files(&entries) {
        return Ok(String::from_str(alloc, "not proper")?);
    }
    let mut tree = MemoryTree::new(entries, failing(alloc, fails)?);
    let mut out = String::new(alloc);
    push_two_reads(&mut out, &mut tree, asks)?;
    push_outcome(&mut out, &format!(in alloc; "{} faults", tree.faults())?)?;
    Ok(out)
}
