//! A case is played: a run over a folder and a sink in memory, and what of it is not as the case wants it.

ghost use Rattle.std.specs.Prelude.{◌≡◌, ◌<◌, ◌++◌, IfOk, IfSome, OnOk, decimal, map, string_bytes, string_len};
ghost use Rattle.std.specs.List.{range_with_len};
ghost use Rattle.stan_cases.specs.Played.{numbered_path, single_files, IsRight};
ghost use Rattle.stan_cases.specs.Wanted.{IsAsWanted, tally_text};
ghost use Rattle.stan_outside.specs.Memory.{file_of};
ghost use Rattle.stan_outside.specs.MemorySink.{sink_bytes, sink_calls};
ghost use Rattle.stan_outside.specs.MemoryTree.{tree_calls};

use stan_base::OutOfMemory;
use stan_case_text::{Case, Files, Place, Wanted};
use stan_cli::{Outcome, Tally, run_alone};
use stan_outside::{MemorySink, MemoryTree, are_files};
use std::alloc::{AllocError, Global};

/// What is wrong with a run, as one line of text, which is empty where nothing is.
pub fn what_is_wrong(alloc: Global, case: Case) -> Result<String, OutOfMemory>
    ensures right { IfOk result (λ wrong. string_len wrong ≡ 0 → IsRight case) }
{
    let files = single_files(alloc, &case.files)?;
    if !are_files(&files) {
        return Ok(String::from_str(
            alloc,
            "its files are not in byte order of proper paths, each once",
        )?);
    }
    let mut tree = MemoryTree::new(files, case.tree_fails);
    let form = case.sink;
    let mut sink = MemorySink::new(alloc, form.room, form.piece, form.fails)?;
    let outcome = run_alone(alloc, &case.words, &mut tree, &mut sink);
    differences(alloc, &case.wanted, &outcome, &tree, &sink)
}

// Each file by itself, as a tree takes them.
fn single_files(alloc: Global, all: &[Files]) -> Result<Vec<(String, Vec<u8>)>, OutOfMemory>
    ensures { IfOk result (λ single. map file_of single.items ≡ single_files all.now) }
{
    let mut single = Vec::new(alloc);
    for files in all {
        match &files.place {
            Place::At(path) => single.push((path.clone()?, files.bytes.clone()?))?,
            Place::Numbered(number) => push_numbered(alloc, &mut single, *number, &files.bytes)?,
        }
    }
    Ok(single)
}

fn push_numbered(
    alloc: Global,
    single: &mut Vec<(String, Vec<u8>)>,
    number: u64,
    bytes: &Vec<u8>,
) -> Result<(), OutOfMemory>
    ensures { OnOk result (map file_of single.new.items ≡ map file_of single.old.items ++ map (λ place. (numbered_path place, bytes.now.items)) (range_with_len 0 number)) }
{
    for place in 0..number {
        single.push((format!(in alloc; "{place:05}.php")?, bytes.clone()?))?;
    }
    Ok(())
}

fn differences(
    alloc: Global,
    wanted: &Wanted,
    outcome: &Outcome,
    tree: &MemoryTree,
    sink: &MemorySink,
) -> Result<String, OutOfMemory>
    ensures { IfOk result (λ wrong. string_len wrong ≡ 0 → IsAsWanted wanted.now outcome.now (tree_calls tree.now).faults (sink_calls sink.now).faults (sink_bytes sink.now)) }
{
    let mut wrong = String::new(alloc);
    let status = outcome.status.to_string(alloc)?;
    compare(&mut wrong, "status", &status, &wanted.status)?;
    compare(
        &mut wrong,
        "tally",
        &tally_text(alloc, outcome.tally)?,
        &wanted.tally,
    )?;
    compare(
        &mut wrong,
        "about",
        &outcome.to_string(alloc)?,
        &wanted.about,
    )?;
    compare_bytes(alloc, &mut wrong, "output", sink.bytes(), &wanted.output)?;
    compare_told(
        alloc,
        &mut wrong,
        "tree-faults",
        tree.faults(),
        &wanted.tree_faults,
    )?;
    compare_told(
        alloc,
        &mut wrong,
        "sink-faults",
        sink.faults(),
        &wanted.sink_faults,
    )?;
    Ok(wrong)
}

fn tally_text(alloc: Global, tally: Tally) -> Result<String, AllocError>
    ensures { IfOk result (λ text. string_bytes text ≡ tally_text tally) }
{
    let Tally {
        files,
        reused,
        analysed,
    } = tally;
    format!(in alloc; "{files} {reused} {analysed}")
}

// Where nothing is wanted each number is right.
fn compare_told(
    alloc: Global,
    wrong: &mut String,
    what: &str,
    came: u64,
    wanted: &Option<String>,
) -> Result<(), AllocError>
    ensures { OnOk result (string_len wrong.new ≡ 0 → (string_len wrong.old ≡ 0) × IfSome wanted.now (λ text. decimal came ≡ string_bytes text)) }
{
    match wanted {
        Some(wanted) => compare(wrong, what, &came.to_string(alloc)?, wanted),
        None => Ok(()),
    }
}

fn compare(wrong: &mut String, what: &str, came: &str, wanted: &str) -> Result<(), AllocError>
    ensures same { OnOk result (came.now ≡ wanted.now → string_bytes wrong.new ≡ string_bytes wrong.old) }
    ensures equal { OnOk result (string_len wrong.new ≡ 0 → (string_len wrong.old ≡ 0) × (came.now ≡ wanted.now)) }
{
    if came == wanted {
        return Ok(());
    }
    push_difference(wrong, what, came, wanted)
}

// Bytes are shown as ASCII, with escapes for the rest.
fn compare_bytes(
    alloc: Global,
    wrong: &mut String,
    what: &str,
    came: &[u8],
    wanted: &[u8],
) -> Result<(), AllocError>
    ensures same { OnOk result (came.now ≡ wanted.now → string_bytes wrong.new ≡ string_bytes wrong.old) }
    ensures equal { OnOk result (string_len wrong.new ≡ 0 → (string_len wrong.old ≡ 0) × (came.now ≡ wanted.now)) }
{
    if came == wanted {
        return Ok(());
    }
    let came = came.escape_ascii().to_string(alloc)?;
    let wanted = wanted.escape_ascii().to_string(alloc)?;
    push_difference(wrong, what, &came, &wanted)
}

fn push_difference(
    wrong: &mut String,
    what: &str,
    came: &str,
    wanted: &str,
) -> Result<(), AllocError>
    ensures { OnOk result (0 < string_len wrong.new) }
{
    if !wrong.is_empty() {
        wrong.push_str("; ")?;
    }
    write!(wrong, "{what} {came}, wanted {wanted}")
}
