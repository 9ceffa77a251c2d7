//! Large choices: folders `d0/`, `d1/`, .. with files `f0.php`, `f1.php`, .. each, listed from the last to the first.

use stan_base::OutOfMemory;
use stan_select::select;
use stan_settings::Config;
use std::alloc::Global;

/// How large a choice is.
#[derive(Clone, Copy)]
pub struct Size {
    /// Each is one of `paths`.
    pub folders: u32,
    /// In each folder.
    pub files: u32,
    /// So many folders from the first are excluded.
    pub excluded: u32,
    /// So many patterns `d*/fN.php`, N from 0, are excluded.
    pub patterns: u32,
}

/// How many files are chosen.
pub fn chosen(alloc: Global, size: Size) -> Result<usize, OutOfMemory> {
    let config = configuration(alloc, size)?;
    let listed = listing(alloc, size)?;
    Ok(select(alloc, &config, &listed)?.len())
}

fn configuration(alloc: Global, size: Size) -> Result<Config, OutOfMemory> {
    let mut paths = Vec::new(alloc);
    for folder in 0..size.folders {
        paths.push(format!(in alloc; "d{folder}")?)?;
    }
    let mut exclude = Vec::new(alloc);
    for folder in 0..size.excluded {
        exclude.push(format!(in alloc; "d{folder}")?)?;
    }
    for file in 0..size.patterns {
        exclude.push(format!(in alloc; "d*/f{file}.php")?)?;
    }
    Ok(Config {
        level: 0,
        paths,
        exclude,
        scan_files: Vec::new(alloc),
        scan_directories: Vec::new(alloc),
        ignore: Vec::new(alloc),
        report_unmatched: true,
    })
}

fn listing(alloc: Global, size: Size) -> Result<Vec<String>, OutOfMemory> {
    let mut listed = Vec::new(alloc);
    for folder in (0..size.folders).rev() {
        for file in (0..size.files).rev() {
            listed.push(format!(in alloc; "d{folder}/f{file}.php")?)?;
        }
    }
    Ok(listed)
}
