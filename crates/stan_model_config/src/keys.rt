//! The keys of a configuration file.

/// A key of the top map.
#[derive(Clone, Copy, Debug, PartialEq, Eq)]
pub enum TopKey {
    Includes,
    Parameters,
}

/// A key of `parameters`.
#[derive(Clone, Copy, Debug, PartialEq, Eq)]
pub enum Parameter {
    Level,
    Paths,
    ExcludePaths,
    ScanFiles,
    ScanDirectories,
    IgnoreErrors,
    ReportUnmatched,
    /// One that takes any value and has no effect.
    WithoutEffect,
}

/// A key of an entry of `ignoreErrors`.
#[derive(Clone, Copy, Debug, PartialEq, Eq)]
pub enum EntryKey {
    Message,
    Path,
    Paths,
    Count,
    ReportUnmatched,
}
