//! All rows below some folders are played, and a line is printed for each.

use crate::compare::{Reading, difference};
use crate::lines::rows;
use std::process::ExitCode;
use std::rt::Files;
use std::{fs, io};

#[derive(Clone, Copy)]
struct Score {
    ok: u64,
    wrong: u64,
}

/// Plays each row of each file of these folders, the files of a folder in byte order, and prints a line for each row: `ok`, the
/// folder and the row, or `WRONG` and what was read. The last line counts both. The code is that of success where no row is wrong.
pub fn play<R: Files + Print + Eprint + AllocGlobal + Clone + Drop, K: Reading>(
    rt: &R,
    folders: &[(&str, K)],
) -> ExitCode {
    match play_folders(rt, folders) {
        Ok(0) => ExitCode::SUCCESS,
        Ok(_) => ExitCode::FAILURE,
        Err(error) => {
            let _ = rt.eprintln(&error);
            ExitCode::FAILURE
        }
    }
}

// How many rows are wrong.
fn play_folders<R: Files + Print + AllocGlobal + Clone + Drop, K: Reading>(
    rt: &R,
    folders: &[(&str, K)],
) -> io::Result<u64> {
    let mut score = Score { ok: 0, wrong: 0 };
    for (folder, kind) in folders {
        for name in &files_of(rt, folder)? {
            play_file(rt, folder, kind, name, &mut score)?;
        }
    }
    let Score { ok, wrong } = score;
    println!(rt; "{ok} ok, {wrong} wrong")?;
    Ok(wrong)
}

// The names of a folder's files, in byte order.
fn files_of<R: Files + AllocGlobal + Clone + Drop>(
    rt: &R,
    folder: &str,
) -> io::Result<Vec<String>> {
    let mut names = Vec::new(rt.alloc());
    for entry in fs::read_dir(rt, folder)? {
        names.push(String::from_str(rt.alloc(), entry?.file_name())?)?;
    }
    names.sort()?;
    Ok(names)
}

fn play_file<R: Files + Print + AllocGlobal, K: Reading>(
    rt: &R,
    folder: &str,
    kind: &K,
    name: &str,
    score: &mut Score,
) -> io::Result<()> {
    let path = format!(in rt.alloc(); "{folder}/{name}")?;
    let text = fs::read_to_string(rt, path)?;
    let Ok(rows) = rows(rt.alloc(), &text) else {
        return Err(io::Error::from(io::ErrorKind::OutOfMemory));
    };
    for row in &rows {
        play_row(rt, folder, kind, row, score)?;
    }
    Ok(())
}

fn play_row<R: Print + AllocGlobal, K: Reading>(
    rt: &R,
    folder: &str,
    kind: &K,
    row: &str,
    score: &mut Score,
) -> io::Result<()> {
    match difference(rt.alloc(), kind, row) {
        Ok(None) => {
            score.ok = score.ok.saturating_add(1);
            println!(rt; "ok {folder}: {row}")
        }
        Ok(Some(found)) => {
            score.wrong = score.wrong.saturating_add(1);
            println!(rt; "WRONG {folder}: {row}: {found}")
        }
        Err(_) => Err(io::Error::from(io::ErrorKind::OutOfMemory)),
    }
}
