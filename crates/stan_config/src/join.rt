//! What several files say together.

ghost use Rattle.std.specs.Prelude.{◌≡◌, ◌++◌, IfOk};
ghost use Rattle.stan_model_config.specs.Files as model;
ghost use Rattle.stan_config_said.specs.Views.{said_view, entry_view};
ghost use Rattle.std.specs.Prelude.{map, string_bytes};

use stan_base::OutOfMemory;
use stan_config_said::Said;
use stan_settings::IgnoreEntry;

fn joined(first: Vec<String>, second: Vec<String>) -> Result<Vec<String>, OutOfMemory>
    ensures { IfOk result (λ both. map string_bytes both.items ≡ map string_bytes first.items ++ map string_bytes second.items) }
{
    let mut both = first;
    let mut second = second;
    both.append(&mut second)?;
    Ok(both)
}

fn joined_entries(
    first: Vec<IgnoreEntry>,
    second: Vec<IgnoreEntry>,
) -> Result<Vec<IgnoreEntry>, OutOfMemory>
    ensures { IfOk result (λ both. map entry_view both.items ≡ map entry_view first.items ++ map entry_view second.items) }
{
    let mut both = first;
    let mut second = second;
    both.append(&mut second)?;
    Ok(both)
}

fn level_or(first: Option<u8>, second: Option<u8>) -> Option<u8>
    ensures { result ≡ model.or_else first second }
{
    match first {
        Some(level) => Some(level),
        None => second,
    }
}

fn truth_or(first: Option<bool>, second: Option<bool>) -> Option<bool>
    ensures { result ≡ model.or_else first second }
{
    match first {
        Some(truth) => Some(truth),
        None => second,
    }
}

/// What a file says over what its includes say. Items are moved.
pub(crate) fn over(own: Said, under: Said) -> Result<Said, OutOfMemory>
    ensures { IfOk result (λ said. said_view said ≡ model.over (said_view own) (said_view under)) }
{
    Ok(Said {
        level: level_or(own.level, under.level),
        paths: joined(own.paths, under.paths)?,
        exclude: joined(own.exclude, under.exclude)?,
        scan_files: joined(own.scan_files, under.scan_files)?,
        scan_directories: joined(own.scan_directories, under.scan_directories)?,
        ignore: joined_entries(own.ignore, under.ignore)?,
        report_unmatched: truth_or(own.report_unmatched, under.report_unmatched),
    })
}

/// What earlier includes say, and a later one. Items are moved.
pub(crate) fn beside(earlier: Said, later: Said) -> Result<Said, OutOfMemory>
    ensures { IfOk result (λ said. said_view said ≡ model.beside (said_view earlier) (said_view later)) }
{
    Ok(Said {
        level: level_or(later.level, earlier.level),
        paths: joined(earlier.paths, later.paths)?,
        exclude: joined(earlier.exclude, later.exclude)?,
        scan_files: joined(earlier.scan_files, later.scan_files)?,
        scan_directories: joined(earlier.scan_directories, later.scan_directories)?,
        ignore: joined_entries(earlier.ignore, later.ignore)?,
        report_unmatched: truth_or(later.report_unmatched, earlier.report_unmatched),
    })
}
