//! The command `analyse` over any folder and any sink.

ghost use Rattle.std.specs.Prelude.{◌≡◌, ◌≤◌, ◌<◌, ◌↔◌, ℕ, List, map, length, string_bytes, None, Some, Err, IfOk, IfErr, IfSome, IsNone, IsSome};
ghost use Rattle.std.specs.List.{zip};
ghost use Rattle.stan_cli.specs.Project.{chosen_files, sources_of, most_files, excess_from, reads_until};
ghost use Rattle.stan_cli.specs.Seen.{seen, seen_tree, seen_sink};
ghost use Rattle.stan_cli.specs.Sources.{source_bytes, KeepsTree};
ghost use Rattle.stan_cli.specs.Words.{refused_part};
ghost use Rattle.stan_cli.specs.Report.{IsReport};
ghost use Rattle.stan_cli.specs.Run.{Comes, IsProjectRefusal, files_of, KeepsLimits, AddsReport, AddsFront, HasStatus};
ghost use Rattle.stan_cli.specs.Tally.{tally_of};
ghost use Rattle.stan_outside.specs.Outside.{Rose, RoseBy};

use crate::analysis::report_of;
use crate::sources::{list_chosen, read_sources};
use crate::words::refused_part;
use crate::writing::write_text;
use crate::{Outcome, Refusal, Tally, Which, WordsPart};
use stan_outside::{Sink, Tree};
use stan_table::Source;
use std::alloc::Global;
use std::sync::Arc;

/// What a run that gave its report knows of it.
#[derive(Clone, Copy, Debug, PartialEq, Eq)]
pub struct Done {
    pub status: u8,
    pub files: u32,
}

/// The chosen paths of a folder, with what was read there.
#[derive(Drop)]
struct Project {
    paths: Vec<String>,
    sources: Vec<Arc<Source>>,
}

fn read_project<T: Tree>(alloc: Global, paths: &[String], tree: &mut T) -> Result<Project, Refusal>
    ensures files { IfOk result (λ project. T.tells tree.old → zip (map string_bytes project.paths.items) (map source_bytes project.sources.items) ≡ chosen_files (map string_bytes paths.now) (T.contents tree.old)) }
    ensures few { IfOk result (λ project. length project.paths.items ≤ most_files) }
    ensures each { IfOk result (λ project. length project.sources.items ≡ length project.paths.items) }
    ensures within { IfOk result (λ project. excess_from 0 (map source_bytes project.sources.items) ≡ None) }
    ensures refused { IfErr result (λ refusal. IsProjectRefusal (seen_tree T.tells T.contents T.never_fails T.faults T.listings T.reads tree.old tree.new) (chosen_files (map string_bytes paths.now) (T.contents tree.old)) refusal) }
    ensures listed { RoseBy 1 (T.listings tree.old) (T.listings tree.new) }
    ensures read_once { IfOk result (λ project. RoseBy (length project.paths.items) (T.reads tree.old) (T.reads tree.new)) }
    ensures keeps { KeepsTree T.tells T.contents T.faults T.never_fails tree.old tree.new }
{
    let paths = list_chosen(alloc, tree, paths)?;
    let sources = read_sources(alloc, tree, &paths)?;
    Ok(Project { paths, sources })
}

fn attempt<T: Tree, K: Sink>(
    alloc: Global,
    words: &[String],
    tree: &mut T,
    sink: &mut K,
) -> Result<Done, Refusal>
    ensures comes { Comes (map string_bytes words.now) (seen (seen_tree T.tells T.contents T.never_fails T.faults T.listings T.reads tree.old tree.new) (seen_sink K.tells K.written K.faults sink.old sink.new)) result }
    ensures steady { T.never_fails tree.old → T.faults tree.new ≡ T.faults tree.old }
    ensures room { T.tells tree.old → (text : List ℕ) (status : ℕ) → IsReport (files_of (map string_bytes words.now) (T.contents tree.old)) text status → length text ≤ K.room sink.old → (K.faults sink.new ≡ K.faults sink.old) × ¬ (result ≡ Err Refusal.SinkFault) }
{
    if let Some(part) = refused_part(words) {
        return Err(Refusal::BadWords { part });
    }
    let project = read_project(alloc, &words[2..], tree)?;
    let report = report_of(alloc, &project.paths, &project.sources)?;
    write_text(sink, report.text.as_bytes())?;
    Ok(Done {
        status: report.status,
        files: project.paths.as_slice().len() as u32,
    })
}

/// Runs the words over a folder and writes the report to the sink. It takes no lock and always returns.
///
/// The words are `analyse`, `--error-format=raw` and one or more paths. The files are at most 50,000, and their bytes
/// together at most 268,435,456. What fails first decides: the words, the listing, the number of files, a read or
/// the sum of bytes after it, the sink. Want of memory may come at any time after the words.
pub fn run_alone<T: Tree, K: Sink>(
    alloc: Global,
    words: &[String],
    tree: &mut T,
    sink: &mut K,
) -> Outcome
    // Without a refusal the sink gained exactly the report of the chosen files, with its status and tally.
    ensures report { IsNone result.refusal → T.tells tree.old → K.tells sink.old → AddsReport (files_of (map string_bytes words.now) (T.contents tree.old)) result.status (K.written sink.old) (K.written sink.new) }
    ensures status { IsNone result.refusal → T.tells tree.old → HasStatus (files_of (map string_bytes words.now) (T.contents tree.old)) result.status }
    ensures tally { IsNone result.refusal → T.tells tree.old → result.tally ≡ tally_of (length (files_of (map string_bytes words.now) (T.contents tree.old))) }
    ensures accepted { IsNone result.refusal → refused_part (map string_bytes words.now) ≡ None }
    ensures limits { IsNone result.refusal → T.tells tree.old → KeepsLimits (files_of (map string_bytes words.now) (T.contents tree.old)) }

    // With one the status is 2 and nothing is counted.
    ensures refused { IsSome result.refusal → (result.status ≡ 2) × (result.tally ≡ tally_of 0) }

    // Which refusal it is.
    ensures bad_words { (part : WordsPart) → (result.refusal ≡ Some (Refusal.BadWords part)) ↔ (refused_part (map string_bytes words.now) ≡ Some part) }
    ensures too_many_files { (counted : ℕ) → result.refusal ≡ Some (Refusal.Limit Which.Files counted) → T.tells tree.old
        → (counted ≡ length (files_of (map string_bytes words.now) (T.contents tree.old))) × (most_files < counted) }
    ensures too_many_bytes { (counted : ℕ) → result.refusal ≡ Some (Refusal.Limit Which.Bytes counted) → T.tells tree.old
        → (length (files_of (map string_bytes words.now) (T.contents tree.old)) ≤ most_files) × (excess_from 0 (sources_of (files_of (map string_bytes words.now) (T.contents tree.old))) ≡ Some counted) }
    ensures tree_fault { result.refusal ≡ Some Refusal.TreeFault → Rose (T.faults tree.old) (T.faults tree.new) }
    ensures sink_fault { result.refusal ≡ Some Refusal.SinkFault → Rose (K.faults sink.old) (K.faults sink.new) }

    // What the sink holds after a refusal: a front of the report where writing it failed, else what it held.
    ensures front { result.refusal ≡ Some Refusal.SinkFault → T.tells tree.old → KeepsLimits (files_of (map string_bytes words.now) (T.contents tree.old))
        × (K.tells sink.old → AddsFront (files_of (map string_bytes words.now) (T.contents tree.old)) (K.written sink.old) (K.written sink.new)) }
    ensures untouched { IsSome result.refusal → ¬ (result.refusal ≡ Some Refusal.SinkFault) → K.tells sink.old → K.written sink.new ≡ K.written sink.old }

    // How often it asks the folder: not at all where the words are refused, else it lists it once. Of the chosen files each is read once, none where there
    // are too many, and none behind the sum that passes the limit.
    ensures listed { refused_part (map string_bytes words.now) ≡ None → RoseBy 1 (T.listings tree.old) (T.listings tree.new) }
    ensures unasked { IsSome (refused_part (map string_bytes words.now)) → (T.listings tree.new ≡ T.listings tree.old) × (T.reads tree.new ≡ T.reads tree.old) }
    ensures read_once { IsNone result.refusal → T.tells tree.old → RoseBy (length (files_of (map string_bytes words.now) (T.contents tree.old))) (T.reads tree.old) (T.reads tree.new) }
    ensures unread { (counted : ℕ) → result.refusal ≡ Some (Refusal.Limit Which.Files counted) → T.reads tree.new ≡ T.reads tree.old }
    ensures read_to_the_limit { (counted : ℕ) → result.refusal ≡ Some (Refusal.Limit Which.Bytes counted) → T.tells tree.old
        → RoseBy (reads_until 0 (sources_of (files_of (map string_bytes words.now) (T.contents tree.old)))) (T.reads tree.old) (T.reads tree.new) }
    ensures read_at_most_once { T.tells tree.old → (number : ℕ) × (number ≤ reads_until 0 (sources_of (files_of (map string_bytes words.now) (T.contents tree.old)))) × RoseBy number (T.reads tree.old) (T.reads tree.new) }

    // Where the words are accepted, the limits are kept and no count of faults rose, memory alone can be wanting.
    ensures complete { refused_part (map string_bytes words.now) ≡ None → T.tells tree.old → KeepsLimits (files_of (map string_bytes words.now) (T.contents tree.old))
        → ¬ (Rose (T.faults tree.old) (T.faults tree.new)) → ¬ (Rose (K.faults sink.old) (K.faults sink.new)) → IfSome result.refusal (λ refusal. refusal ≡ Refusal.OutOfMemory) }

    // A folder that never fails and a sink with room for the report have no fault.
    ensures steady_tree { T.never_fails tree.old → (T.faults tree.new ≡ T.faults tree.old) × ¬ (result.refusal ≡ Some Refusal.TreeFault) }
    ensures steady_sink { T.tells tree.old → (text : List ℕ) (status : ℕ) → IsReport (files_of (map string_bytes words.now) (T.contents tree.old)) text status → length text ≤ K.room sink.old
        → (K.faults sink.new ≡ K.faults sink.old) × ¬ (result.refusal ≡ Some Refusal.SinkFault) }
{
    match attempt(alloc, words, tree, sink) {
        Ok(done) => Outcome {
            status: done.status,
            refusal: None,
            tally: Tally {
                files: done.files,
                reused: 0,
                analysed: done.files,
            },
        },
        Err(refusal) => Outcome::refused(refusal),
    }
}
