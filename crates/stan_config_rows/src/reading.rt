//! What is read of a row's project.

ghost use Rattle.std.specs.Prelude.{map, string_bytes};
ghost use Rattle.stan_config.specs.Folder.{AreHeld};
ghost use Rattle.stan_model_config.specs.Faults.{is_among};

use crate::project::{files, words_asked};
use crate::shown::{config_text, stop_text};
use stan_base::OutOfMemory;
use stan_config::{Config, ConfigStop, Words, load};
use stan_outside::{Fail, MemoryTree, Tree, are_files};
use stan_rows::{Reading, number, parts};
use std::alloc::Global;

/// The folders of rows.
pub const FOLDERS: [(&str, Kind); 4] = [
    ("keys", Kind::Meaning),
    ("files", Kind::Meaning),
    ("reads", Kind::Reads),
    ("chains", Kind::Chain),
];

#[derive(Clone, Copy)]
pub enum Kind {
    /// What the configuration means, or why it is refused.
    Meaning,
    /// How many files are read.
    Reads,
    /// Whether a chain of so many includes is read, and where it is refused.
    Chain,
}

impl Reading for Kind {
    fn reading(&self, alloc: Global, text: &str) -> Result<String, OutOfMemory> {
        let (project, words) = parts(text);
        match self {
            Kind::Meaning => played(alloc, files(alloc, project)?, words, false),
            Kind::Reads => played(alloc, files(alloc, project)?, words, true),
            Kind::Chain => played(alloc, chain(alloc, number(project))?, "-c a100 p", false),
        }
    }
}

// Files of which each but the last includes the next.
fn chain(alloc: Global, includes: u32) -> Result<Vec<(String, Vec<u8>)>, OutOfMemory> {
    let mut files = Vec::new(alloc);
    for place in 0..includes {
        let at = 100 + u64::from(place);
        let next = at + 1;
        let text = format!(in alloc; "includes: [a{next}]")?;
        let mut bytes = Vec::new(alloc);
        bytes.extend_from_slice(text.as_bytes())?;
        files.push((format!(in alloc; "a{at}")?, bytes))?;
    }
    let last = 100 + u64::from(includes);
    files.push((format!(in alloc; "a{last}")?, Vec::new(alloc)))?;
    Ok(files)
}

// By any folder, so that what `load` says is not said of the whole of this one.
fn config_of<T: Tree>(
    alloc: Global,
    tree: &mut T,
    listed: &[String],
    words: &Words,
) -> Result<Config, ConfigStop>
    requires { T.tells tree.old → AreHeld (T.contents tree.old) (is_among (map string_bytes listed.now)) }
{
    load(alloc, tree, listed, words)
}

fn played(
    alloc: Global,
    files: Vec<(String, Vec<u8>)>,
    words: &str,
    counts: bool,
) -> Result<String, OutOfMemory> {
    if !are_files(&files) {
        return Ok(String::from_str(alloc, "no project")?);
    }
    let asked = words_asked(alloc, words)?;
    let mut tree = MemoryTree::new(files, asked.failing);
    let listed = match tree.list(alloc) {
        Ok(listed) => listed,
        Err(Fail::Failed) => return Ok(String::from_str(alloc, "not listed")?),
        Err(Fail::OutOfMemory) => return Err(OutOfMemory),
    };
    let loaded = config_of(alloc, &mut tree, &listed, &asked.words);
    if counts {
        let reads = tree.reads();
        return Ok(format!(in alloc; "{reads}")?);
    }
    match loaded {
        Ok(config) => config_text(alloc, &config, !words.is_empty()),
        Err(stop) => stop_text(alloc, stop),
    }
}
