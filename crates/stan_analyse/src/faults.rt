//! The faults of a file over a whole table.

ghost use Rattle.std.specs.Prelude.{◌≡◌, ◌≤◌, ◌<◌, ◌-◌, ◌^◌, ◌++◌, IfOk, map, length, option_map};
ghost use Rattle.std.specs.List.{filter, flat_map};
ghost use Rattle.std.specs.Option.{option_to_list};
ghost use Rattle.stan_model_readings.specs.Reading.{IsReading};
ghost use Rattle.stan_model_statements.specs.TreeLists.{tops};
ghost use Rattle.stan_model_verdict.specs.Fault.{in_order};
ghost use Rattle.stan_model_verdict.specs.Faults as model;
ghost use Rattle.stan_model_verdict.specs.Levels.{is_within, level_of};
ghost use Rattle.stan_model_walk.specs.Scopes.{in_top, in_tops};
ghost use Rattle.stan_analyst.specs.Verdict.{fault_of};
ghost use Rattle.stan_expr_walk.specs.Found.{finding_of, found_of};
ghost use Rattle.stan_names.specs.Scopes.{scope_of};
ghost use Rattle.stan_stmt_trees.specs.Files.{file_of, top_of};
ghost use Rattle.stan_stmt_trees.specs.Tree.{statement_of};
ghost use Rattle.stan_table.specs.Index.{index_table};
ghost use Rattle.stan_analyse.specs.Facts.{fact_of};
ghost use Rattle.stan_analyse.specs.Faults.{faults_of_found, faults_of_statement, faults_of_tops};
ghost use Rattle.stan_analyse.specs.Lines.{AreFeeds};
ghost use Rattle.stan_analyse.specs.Reading.{reading_of};

use crate::facts::{Fact, fact_there};
use crate::lines::LineFeeds;
use crate::reading::Reading;
use crate::rules::{constant_not_found, function_not_found, unreadable_file};
use stan_analyst::Fault;
use stan_base::OutOfMemory;
use stan_expr_walk::Found;
use stan_names::Names;
use stan_scopes::{block, enter, outside};
use stan_stmt_trees::{FileTree, Stmt, Top};
use stan_stmt_walk::findings;
use stan_table::Index;
use std::alloc::Global;

// What a file is judged by: its source with the places of its line feeds, and the index.
#[derive(Clone, Copy)]
struct Judging<'a> {
    source: &'a [u8],
    feeds: &'a LineFeeds,
    index: &'a Index,
}

/// The faults of a source with this reading at a level, by line, rule and text, equal ones once.
pub fn faults_of(
    alloc: Global,
    source: &[u8],
    level: u8,
    reading: &Reading,
    index: &Index,
) -> Result<Vec<Fault>, OutOfMemory>
    requires { IsReading source.now (reading_of reading.now) }
    ensures { IfOk result (λ faults. map fault_of faults.items ≡ model.faults_of (index_table index.now) source.now level (reading_of reading.now)) }
{
    match reading {
        Reading::Readable(tree) => {
            in_order(at_level(level, tree_faults(alloc, source, tree, index)?))
        }
        Reading::TooLarge => unreadable_file::fault(alloc, 1, unreadable_file::TOO_LARGE),
        Reading::NotUtf8 => unreadable_file::fault(alloc, 1, unreadable_file::NOT_UTF8),
        Reading::Broken(line) => unreadable_file::fault(alloc, *line, unreadable_file::BROKEN),
    }
}

// The faults of a tree at all levels, in the order in which they are found.
fn tree_faults(
    alloc: Global,
    source: &[u8],
    tree: &FileTree,
    index: &Index,
) -> Result<Vec<Fault>, OutOfMemory>
    requires { length source.now < 2 ^ 32 - 1 }
    ensures { IfOk result (λ faults. map fault_of faults.items ≡ faults_of_tops (index_table index.now) source.now (file_of tree.now).tops) }
{
    let feeds = LineFeeds::new(alloc, source)?;
    let judging = Judging {
        source,
        feeds: &feeds,
        index,
    };
    let mut faults = Vec::new(alloc);
    let mut names = outside(alloc)?;
    tops_faults(
        alloc,
        &judging,
        &mut names,
        tree.tops.as_slice(),
        &mut faults,
    )?;
    Ok(faults)
}

#[cycle(tops)]
fn tops_faults(
    alloc: Global,
    judging: &Judging<'_>,
    names: &mut Names,
    list: &[Top],
    faults: &mut Vec<Fault>,
) -> Result<(), OutOfMemory>
    requires small { length judging.now.source.now < 2 ^ 32 - 1 }
    requires feeds { AreFeeds judging.now.source.now judging.now.feeds.now }
    ensures { IfOk result (λ u. map fault_of faults.new.items ≡ map fault_of faults.old.items
        ++ in_tops (faults_of_statement (index_table judging.now.index.now) judging.now.source.now) judging.now.source.now (scope_of names.old) (tops (map top_of list.now))) }
{
    for top in list {
        top_faults(alloc, judging, names, top, faults)?;
        enter(alloc, judging.source, names, top)?;
    }
    Ok(())
}

#[cycle(tops)]
fn top_faults(
    alloc: Global,
    judging: &Judging<'_>,
    names: &Names,
    top: &Top,
    faults: &mut Vec<Fault>,
) -> Result<(), OutOfMemory>
    requires small { length judging.now.source.now < 2 ^ 32 - 1 }
    requires feeds { AreFeeds judging.now.source.now judging.now.feeds.now }
    ensures { IfOk result (λ u. map fault_of faults.new.items ≡ map fault_of faults.old.items
        ++ in_top (faults_of_statement (index_table judging.now.index.now) judging.now.source.now) judging.now.source.now (scope_of names.now) (top_of top.now)) }
{
    match top {
        Top::Namespace { .. } => Ok(()),
        Top::NamespaceBlock { name, tops, .. } => {
            let mut inside = block(alloc, judging.source, names, name)?;
            tops_faults(alloc, judging, &mut inside, tops.as_slice(), faults)
        }
        Top::Use { .. } => Ok(()),
        Top::UseGroup { .. } => Ok(()),
        Top::Plain(statement) => statement_faults(alloc, judging, names, statement, faults),
    }
}

fn statement_faults(
    alloc: Global,
    judging: &Judging<'_>,
    names: &Names,
    statement: &Stmt,
    faults: &mut Vec<Fault>,
) -> Result<(), OutOfMemory>
    requires small { length judging.now.source.now < 2 ^ 32 - 1 }
    requires feeds { AreFeeds judging.now.source.now judging.now.feeds.now }
    ensures { IfOk result (λ u. map fault_of faults.new.items ≡ map fault_of faults.old.items
        ++ faults_of_statement (index_table judging.now.index.now) judging.now.source.now (scope_of names.now) (statement_of statement.now)) }
{
    let found = findings(alloc, statement)?;
    all_faults(alloc, judging, names, found.as_slice(), faults)
}

fn all_faults(
    alloc: Global,
    judging: &Judging<'_>,
    names: &Names,
    found: &[Found],
    faults: &mut Vec<Fault>,
) -> Result<(), OutOfMemory>
    requires small { length judging.now.source.now < 2 ^ 32 - 1 }
    requires feeds { AreFeeds judging.now.source.now judging.now.feeds.now }
    ensures { IfOk result (λ u. map fault_of faults.new.items ≡ map fault_of faults.old.items
        ++ flat_map (λ f. faults_of_found (index_table judging.now.index.now) judging.now.source.now (scope_of names.now) (found_of f)) found.now) }
{
    for it in found {
        found_faults(alloc, judging, names, *it, faults)?;
    }
    Ok(())
}

fn found_faults(
    alloc: Global,
    judging: &Judging<'_>,
    names: &Names,
    found: Found,
    faults: &mut Vec<Fault>,
) -> Result<(), OutOfMemory>
    requires small { length judging.now.source.now < 2 ^ 32 - 1 }
    requires feeds { AreFeeds judging.now.source.now judging.now.feeds.now }
    ensures { IfOk result (λ u. map fault_of faults.new.items ≡ map fault_of faults.old.items
        ++ faults_of_found (index_table judging.now.index.now) judging.now.source.now (scope_of names.now) (found_of found)) }
{
    match fact_there(alloc, judging.source, judging.feeds, names, found.finding)? {
        None => Ok(()),
        Some(fact) => fact_faults(alloc, &fact, judging.index, faults),
    }
}

// What each rule says of a fact. One line a rule.
fn fact_faults(
    alloc: Global,
    fact: &Fact,
    index: &Index,
    faults: &mut Vec<Fault>,
) -> Result<(), OutOfMemory>
    ensures { IfOk result (λ u. map fault_of faults.new.items ≡ map fault_of faults.old.items ++ model.faults_of_fact (index_table index.now) (fact_of fact.now)) }
{
    push(function_not_found::judge(alloc, fact, index)?, faults)?;
    push(constant_not_found::judge(alloc, fact, index)?, faults)
}

fn push(fault: Option<Fault>, faults: &mut Vec<Fault>) -> Result<(), OutOfMemory>
    ensures { IfOk result (λ u. map fault_of faults.new.items ≡ map fault_of faults.old.items ++ option_to_list (option_map fault_of fault)) }
{
    match fault {
        None => Ok(()),
        Some(fault) => {
            faults.push(fault)?;
            Ok(())
        }
    }
}

// From which level on a rule comes.
fn level_of(rule: u16) -> u8
    ensures { result ≡ level_of rule }
{
    if rule == function_not_found::NUMBER {
        function_not_found::LEVEL
    } else if rule == constant_not_found::NUMBER {
        constant_not_found::LEVEL
    } else {
        unreadable_file::LEVEL
    }
}

fn comes_at(level: u8, fault: &Fault) -> bool
    ensures { result ≡ is_within level (fault_of fault.now) }
{
    level_of(fault.rule) <= level
}

// Those that come at this level.
fn at_level(level: u8, mut faults: Vec<Fault>) -> Vec<Fault>
    ensures { map fault_of result.items ≡ filter (is_within level) (map fault_of faults.items) }
{
    faults.retain(|fault| comes_at(level, fault));
    faults
}

// In order, equal ones once.
fn in_order(mut faults: Vec<Fault>) -> Result<Vec<Fault>, OutOfMemory>
    ensures { IfOk result (λ ordered. map fault_of ordered.items ≡ in_order (map fault_of faults.items)) }
{
    faults.sort()?;
    faults.dedup();
    Ok(faults)
}
