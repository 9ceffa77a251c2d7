//! What a run is asked to do: the words of a command line, and what a project's configuration says.
#![tactic(auto)]

/// How faults are written.
#[derive(Clone, Copy, PartialEq, Eq)]
pub enum Format {
    Table,
    Raw,
    Json,
}

/// What the words of a command line ask for.
#[derive(Drop)]
pub struct Words {
    /// The configuration that is read, relative to the folder.
    pub configuration: Option<String>,
    /// 0 to 9.
    pub level: Option<u8>,
    pub format: Format,
    pub workers: u32,
    /// The path of the cache.
    pub cache: String,
    /// Whether a baseline is written.
    pub baseline: bool,
    /// They take the place of the configuration's `paths`.
    pub paths: Vec<String>,
}

/// Which faults are passed over.
#[derive(Drop)]
pub struct IgnoreEntry {
    /// A regular expression with its delimiters.
    pub message: String,
    /// Files, folders or patterns; none: every file.
    pub paths: Vec<String>,
    /// How many faults it takes, from 1 to 2^31-1.
    pub count: Option<u32>,
    /// Whether it is a fault that it takes none; none: as the whole configuration says.
    pub report_unmatched: Option<bool>,
}

/// What a configuration means. Paths are relative to the folder, with `/` between their parts.
#[derive(Drop)]
pub struct Config {
    /// 0 to 9.
    pub level: u8,
    /// What is analysed: files, and folders.
    pub paths: Vec<String>,
    /// What is left out: files, folders, and patterns in which `*` stands for any bytes.
    pub exclude: Vec<String>,
    /// Files that give declarations and no faults.
    pub scan_files: Vec<String>,
    /// Folders whose files give declarations and no faults.
    pub scan_directories: Vec<String>,
    pub ignore: Vec<IgnoreEntry>,
    /// Whether an entry of `ignore` that takes nothing is a fault.
    pub report_unmatched: bool,
}
