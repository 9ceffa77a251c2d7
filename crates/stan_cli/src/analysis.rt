//! The analysis of all sources: what they declare, and then the faults of each over the index of that.

ghost use Rattle.std.specs.Prelude.{◌≡◌, ◌==◌, not, map, length, string_bytes, None, IfOk};
ghost use Rattle.std.specs.List.{zip, list_any};
ghost use Rattle.stan_cli.specs.Project.{excess_from};
ghost use Rattle.stan_table.specs.Index.{index_table};
ghost use Rattle.stan_analyst.specs.Verdict.{fault_of};
ghost use Rattle.stan_cli.specs.Files.{file_of};
ghost use Rattle.stan_cli.specs.Report.{IsReport, IsTable, AreJudged, status_of};
ghost use Rattle.stan_cli.specs.Sources.{source_bytes};

use crate::raw::raw;
use stan_analyse::PhpAnalyst;
use stan_analyst::{FileFaults, Verdict};
use stan_base::OutOfMemory;
use stan_table::{Index, Source};
use std::alloc::Global;
use std::sync::Arc;

/// The level of all runs.
const LEVEL: u8 = 0;

/// The text of a report, and the status that goes with it.
#[derive(Drop)]
pub struct Report {
    pub text: String,
    pub status: u8,
}

fn index_of(
    alloc: Global,
    analyst: &mut PhpAnalyst,
    sources: &[Arc<Source>],
) -> Result<Index, OutOfMemory>
    requires { excess_from 0 (map source_bytes sources.now) ≡ None }
    ensures { IfOk result (λ index. IsTable (map source_bytes sources.now) (index_table index)) }
{
    let mut nodes = Vec::new(alloc);
    for source in sources {
        let mut declared = analyst.exports(alloc, source.bytes.as_slice())?;
        nodes.append(&mut declared)?;
    }
    Index::build(alloc, nodes)
}

fn judge_all(
    alloc: Global,
    analyst: &mut PhpAnalyst,
    paths: &[String],
    sources: &[Arc<Source>],
    index: &Index,
) -> Result<Vec<FileFaults>, OutOfMemory>
    requires { length sources.now ≡ length paths.now }
    ensures { IfOk result (λ files. AreJudged (index_table index.now) (zip (map string_bytes paths.now) (map source_bytes sources.now)) (map file_of files.items)) }
{
    let mut files = Vec::new(alloc);
    for (place, source) in sources.iter().enumerate() {
        let verdict = analyst.judge(alloc, source, LEVEL, index)?;
        files.push(file_faults(alloc, paths[place].as_str(), verdict)?)?;
    }
    Ok(files)
}

fn file_faults(alloc: Global, path: &str, verdict: Verdict) -> Result<FileFaults, OutOfMemory>
    ensures { IfOk result (λ file. file_of file ≡ (path.now, map fault_of verdict.faults.items)) }
{
    let path = String::from_str(alloc, path)?;
    Ok(FileFaults {
        path,
        faults: verdict.faults,
        ignored: verdict.ignored,
    })
}

// 1 where a file has a fault.
fn status_of(files: &[FileFaults]) -> u8
    ensures { result ≡ status_of (map file_of files.now) }
{
    if has_fault(files) { 1 } else { 0 }
}

fn has_fault(files: &[FileFaults]) -> bool
    ensures { result ≡ list_any (λ file. not (length file.1 == 0)) (map file_of files.now) }
{
    files.iter().any(|file| !file.faults.as_slice().is_empty())
}

/// The report of the sources, which stand at the paths.
pub fn report_of(
    alloc: Global,
    paths: &[String],
    sources: &[Arc<Source>],
) -> Result<Report, OutOfMemory>
    requires each { length sources.now ≡ length paths.now }
    requires within { excess_from 0 (map source_bytes sources.now) ≡ None }
    ensures { IfOk result (λ report. IsReport (zip (map string_bytes paths.now) (map source_bytes sources.now)) (string_bytes report.text) report.status) }
{
    let mut analyst = PhpAnalyst::new();
    let index = index_of(alloc, &mut analyst, sources)?;
    let files = judge_all(alloc, &mut analyst, paths, sources, &index)?;
    let text = raw(alloc, &files)?;
    Ok(Report {
        text,
        status: status_of(&files),
    })
}
