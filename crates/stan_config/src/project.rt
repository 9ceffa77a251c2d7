//! The configuration of a project.

ghost use Rattle.std.specs.Prelude.{◌≡◌, ◌≤◌, ◌++◌, ℕ, List, [], ◌∷◌, IfOk, IfErr, Ok, length, map, string_bytes, option_map, unwrap_or, true};
ghost use Rattle.stan_config.specs.Neon.{IsNeon, IsMeant};
ghost use Rattle.stan_config.specs.Stops.{IsCause};
ghost use Rattle.stan_config.specs.Views.{asked, config_view};
ghost use Rattle.stan_config.specs.Folder.{AreHeld, KeepsTree};
ghost use Rattle.stan_config.specs.Reads.{read_from, files_read, RoseAtMost};
ghost use Rattle.stan_config_paths.specs.TextSet.{has};
ghost use Rattle.stan_config_said.specs.Views.{said_view};
ghost use Rattle.stan_model_config.specs.Faults.{is_among};
ghost use Rattle.stan_paths.specs.Paths.{normal_path};
ghost use Rattle.stan_model_config.specs.Files as model;
ghost use Rattle.stan_outside.specs.Outside.{Rose, RoseBy};

use crate::ConfigStop;
use crate::read_files::ReadFiles;
use crate::walk::found_at;
use stan_base::OutOfMemory;
use stan_config_paths::TextSet;
use stan_config_said::Said;
use stan_outside::Tree;
use stan_paths::{normal_path, normal_paths};
use stan_settings::{Config, Words};
use std::alloc::Global;

/// The most includes on a chain.
const MOST_INCLUDES: u32 = 64;

fn set_of<'a>(alloc: Global, listed: &'a [String]) -> Result<TextSet<'a>, OutOfMemory>
    ensures { IfOk result (λ set. (text : List ℕ) → has set text ≡ is_among (map string_bytes listed.now) text) }
{
    let mut set = TextSet::new(alloc);
    for path in listed {
        let _ = set.add(path.as_str())?;
    }
    Ok(set)
}

fn default_root(alloc: Global, listed: &TextSet) -> Result<Option<String>, OutOfMemory>
    ensures { IfOk result (λ root. option_map string_bytes root ≡ model.first_listed (has listed.now) model.default_names) }
{
    if listed.has("phpstan.neon") {
        return Ok(Some(String::from_str(alloc, "phpstan.neon")?));
    }
    if listed.has("phpstan.neon.dist") {
        return Ok(Some(String::from_str(alloc, "phpstan.neon.dist")?));
    }
    if listed.has("phpstan.dist.neon") {
        return Ok(Some(String::from_str(alloc, "phpstan.dist.neon")?));
    }
    Ok(None)
}

// The file that is read first.
fn root_of(
    alloc: Global,
    listed: &TextSet,
    configuration: &Option<String>,
) -> Result<Option<String>, OutOfMemory>
    ensures { IfOk result (λ root. option_map string_bytes root ≡ model.root_of (has listed.now) (option_map string_bytes configuration.now)) }
{
    match configuration {
        Some(path) => Ok(Some(normal_path(alloc, path.as_str())?)),
        None => default_root(alloc, listed),
    }
}

// The words' paths take the place of those of the files.
fn chosen_paths(
    alloc: Global,
    asked: &[String],
    said: Vec<String>,
) -> Result<Vec<String>, OutOfMemory>
    ensures { IfOk result (λ paths. map string_bytes paths.items ≡ model.chosen_paths (map string_bytes asked.now) (map string_bytes said.items)) }
{
    if asked.is_empty() {
        Ok(said)
    } else {
        normal_paths(alloc, asked)
    }
}

fn level_of(asked: Option<u8>, said: Option<u8>) -> u8
    ensures { result ≡ unwrap_or (model.or_else asked said) 0 }
{
    match asked {
        Some(level) => level,
        None => match said {
            Some(level) => level,
            None => 0,
        },
    }
}

fn truth_of(said: Option<bool>) -> bool
    ensures { result ≡ unwrap_or said true }
{
    match said {
        Some(truth) => truth,
        None => true,
    }
}

// What is said, under some words.
fn meaning(alloc: Global, words: &Words, said: Said) -> Result<Config, ConfigStop>
    ensures config { IfOk result (λ config. model.with_paths (model.meaning (asked words.now) (said_view said)) ≡ Ok (config_view config)) }
    ensures refused { IfErr result (λ stop. IsCause (Unit {0}) ⊥ (λ _. model.with_paths (model.meaning (asked words.now) (said_view said))) stop) }
{
    let level = level_of(words.level, said.level);
    let report_unmatched = truth_of(said.report_unmatched);
    let Said {
        level: _,
        paths,
        exclude,
        scan_files,
        scan_directories,
        ignore,
        report_unmatched: _,
    } = said;
    let paths = chosen_paths(alloc, &words.paths, paths)?;
    if paths.is_empty() {
        return Err(ConfigStop::NoPaths);
    }
    Ok(Config {
        level,
        paths,
        exclude,
        scan_files,
        scan_directories,
        ignore,
        report_unmatched,
    })
}

// What the files say.
fn said_from<T: Tree>(
    alloc: Global,
    tree: &mut T,
    listed: &TextSet,
    root: Option<String>,
) -> Result<Said, ConfigStop>
    requires { T.tells tree.old → AreHeld (T.contents tree.old) (has listed.now) }
    ensures said { IfOk result (λ said. T.tells tree.old → IsMeant (λ neon. model.said_from (model.content_at neon (T.contents tree.old) (has listed.now)) (option_map string_bytes root)) (Ok (said_view said))) }
    ensures refused { IfErr result (λ stop. IsCause (T.tells tree.old) (Rose (T.faults tree.old) (T.faults tree.new)) (λ neon. model.said_from (model.content_at neon (T.contents tree.old) (has listed.now)) (option_map string_bytes root)) stop) }
    ensures read_once { IfOk result (λ said. T.tells tree.old → (neon : model.Neon) → IsNeon neon → RoseBy (length (read_from (model.content_at neon (T.contents tree.old) (has listed.now)) (option_map string_bytes root))) (T.reads tree.old) (T.reads tree.new)) }
    ensures read_at_most_once { T.tells tree.old → (neon : model.Neon) → IsNeon neon → RoseAtMost (length (read_from (model.content_at neon (T.contents tree.old) (has listed.now)) (option_map string_bytes root))) (T.reads tree.old) (T.reads tree.new) }
    ensures keeps { KeepsTree T.tells T.contents T.faults T.listings T.never_fails tree.old tree.new }
{
    match root {
        Some(file) => {
            let mut read = ReadFiles::new(alloc);
            found_at(
                alloc,
                tree,
                listed,
                MOST_INCLUDES,
                &[],
                &mut read,
                file.as_str(),
            )
        }
        None => Ok(Said::nothing(alloc)),
    }
}

/// The configuration of a project: what the files of its folder mean under the words. `listed` are the paths of its files.
///
/// The words' configuration is read, else the first of `phpstan.neon`, `phpstan.neon.dist` and `phpstan.dist.neon` that is
/// listed. A file is read once. What is first at fault decides: each file is looked for, is then NEON or not, and is then
/// judged by its keys, and its includes come behind it, in their order. The paths come last.
pub fn load<T: Tree>(
    alloc: Global,
    tree: &mut T,
    listed: &[String],
    words: &Words,
) -> Result<Config, ConfigStop>
    requires { T.tells tree.old → AreHeld (T.contents tree.old) (is_among (map string_bytes listed.now)) }

    // What the configuration means, or why it is refused.
    ensures config { IfOk result (λ config. T.tells tree.old → IsMeant (λ neon. model.configuration neon (T.contents tree.old) (map string_bytes listed.now) (asked words.now)) (Ok (config_view config))) }
    ensures refused { IfErr result (λ stop. IsCause (T.tells tree.old) (Rose (T.faults tree.old) (T.faults tree.new)) (λ neon. model.configuration neon (T.contents tree.old) (map string_bytes listed.now) (asked words.now)) stop) }

    // Each file that the configuration is made of is read once, and where it is refused none is read twice and none behind the one at which it is.
    ensures read_once { IfOk result (λ config. T.tells tree.old → (neon : model.Neon) → IsNeon neon → RoseBy (length (files_read neon (T.contents tree.old) (map string_bytes listed.now) (asked words.now))) (T.reads tree.old) (T.reads tree.new)) }
    ensures read_at_most_once { T.tells tree.old → (neon : model.Neon) → IsNeon neon → RoseAtMost (length (files_read neon (T.contents tree.old) (map string_bytes listed.now) (asked words.now))) (T.reads tree.old) (T.reads tree.new) }

    // The folder isn't listed.
    ensures keeps { KeepsTree T.tells T.contents T.faults T.listings T.never_fails tree.old tree.new }
{
    let names = set_of(alloc, listed)?;
    let root = root_of(alloc, &names, &words.configuration)?;
    match said_from(alloc, tree, &names, root) {
        Ok(said) => meaning(alloc, words, said),
        Err(stop) => Err(stop),
    }
}
