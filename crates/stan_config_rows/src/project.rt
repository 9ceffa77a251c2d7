//! The project of a row: files apart by `¦`, each `PATH ⇒ TEXT`, then `⋯` and the words.

use stan_base::OutOfMemory;
use stan_rows::{number, plain, words};
use stan_settings::{Format, Words};
use std::alloc::Global;

/// The files of a project, in byte order of their paths.
pub fn files(alloc: Global, text: &str) -> Result<Vec<(String, Vec<u8>)>, OutOfMemory> {
    let mut files = Vec::new(alloc);
    for piece in text.split('¦') {
        if let Some((path, content)) = piece.split_once("⇒") {
            let path = String::from_str(alloc, path.trim())?;
            let content = plain(alloc, content.trim())?;
            let mut bytes = Vec::new(alloc);
            bytes.extend_from_slice(content.as_bytes())?;
            files.push((path, bytes))?;
        }
    }
    Ok(files)
}

/// What a row asks for: `-c` and a path, `-l` and a level, `!` and the number of a call that fails, `-` for no path, and paths. Where
/// a row has no words, they are the path `p`.
#[derive(Drop)]
pub struct Asked {
    pub words: Words,
    pub failing: Vec<u64>,
}

fn no_words(alloc: Global) -> Result<Asked, OutOfMemory> {
    Ok(Asked {
        words: Words {
            configuration: None,
            level: None,
            format: Format::Table,
            workers: 4,
            cache: String::new(alloc),
            baseline: false,
            paths: Vec::new(alloc),
        },
        failing: Vec::new(alloc),
    })
}

pub fn words_asked(alloc: Global, text: &str) -> Result<Asked, OutOfMemory> {
    let mut asked = no_words(alloc)?;
    let given = words(alloc, text)?;
    for at in 0..given.len() {
        let before = if at == 0 { "" } else { given[at - 1].as_str() };
        take_word(alloc, &mut asked, before, given[at].as_str())?;
    }
    if text.is_empty() {
        asked.words.paths.push(String::from_str(alloc, "p")?)?;
    }
    Ok(asked)
}

fn take_word(
    alloc: Global,
    asked: &mut Asked,
    before: &str,
    word: &str,
) -> Result<(), OutOfMemory> {
    if before == "-c" {
        asked.words.configuration = Some(String::from_str(alloc, word)?);
    } else if before == "-l" {
        asked.words.level = Some((number(word) % 10) as u8);
    } else if before == "!" {
        asked.failing.push(u64::from(number(word)))?;
    } else if !is_sign(word) {
        asked.words.paths.push(String::from_str(alloc, word)?)?;
    }
    Ok(())
}

fn is_sign(word: &str) -> bool {
    word.is_empty() || word == "-c" || word == "-l" || word == "!" || word == "-"
}
