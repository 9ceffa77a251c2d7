//! A file and what it includes, in the order in which they are read.

ghost use Rattle.std.specs.Prelude.{◌≡◌, ◌++◌, ℕ, List, [], ◌∷◌, IfOk, IfErr, Ok, length, map, string_bytes, false};
ghost use Rattle.std.specs.List.{list_any};
ghost use Rattle.stan_config.specs.Neon.{IsNeon, IsMeant};
ghost use Rattle.stan_config.specs.Walk.{file_means, includes_mean, found_nothing, file_reads, include_reads};
ghost use Rattle.stan_config.specs.Reads.{ReadsAdded, ReadsWithin};
ghost use Rattle.stan_config.specs.Stops.{IsCause, IsAtIncludes};
ghost use Rattle.stan_config.specs.Views.{files_view, found_view};
ghost use Rattle.stan_config.specs.Folder.{AreHeld, KeepsTree};
ghost use Rattle.stan_config_paths.specs.TextSet.{has};
ghost use Rattle.stan_config_said.specs.Views.{said_view, content_view};
ghost use Rattle.stan_model_config.specs.Faults.{is_among};
ghost use Rattle.stan_model_config.specs.Files as model;
ghost use Rattle.stan_outside.specs.Outside.{Rose};

use crate::ConfigStop;
use crate::file::read_file;
use crate::join::{beside, over};
use crate::read_files::ReadFiles;
use stan_base::OutOfMemory;
use stan_config_paths::TextSet;
use stan_config_said::{Content, Said};
use stan_outside::Tree;
use std::alloc::Global;

fn is_on(chain: &[&str], file: &str) -> bool
    ensures { result ≡ is_among (map (λ other. other.now) chain.now) file.now }
{
    chain.iter().any(|other| *other == file)
}

// Whether one of the includes is on the chain.
fn lead_back(chain: &[&str], includes: &[String]) -> bool
    ensures { result ≡ list_any (λ include. is_among (map (λ other. other.now) chain.now) include) (map string_bytes includes.now) }
{
    includes
        .iter()
        .any(|include| is_on(chain, include.as_str()))
}

fn longer<'a>(alloc: Global, chain: &[&'a str], file: &'a str) -> Result<Vec<&'a str>, OutOfMemory>
    ensures { IfOk result (λ longer. map (λ other. other.now) longer.items ≡ map (λ other. other.now) chain.now ++ file.now ∷ []) }
{
    let mut longer = Vec::new(alloc);
    for other in chain {
        longer.push(*other)?;
    }
    longer.push(file)?;
    Ok(longer)
}

fn refused_includes(alloc: Global, file: &str) -> Result<ConfigStop, OutOfMemory>
    ensures { IfOk result (λ stop. IsAtIncludes file.now stop) }
{
    let path = String::from_str(alloc, file)?;
    let key = String::from_str(alloc, "includes")?;
    Ok(ConfigStop::BadConfig { path, key })
}

// A file to which as many includes led as may be.
fn alone(alloc: Global, file: &str, content: Content) -> Result<Said, ConfigStop>
    ensures said { IfOk result (λ said. (read : List (List ℕ)) → model.alone read file.now (content_view content) ≡ Ok (record { said = said_view said; read = model.begun read file.now })) }
    ensures refused { IfErr result (λ stop. (read : List (List ℕ)) → IsCause (Unit {0}) ⊥ (λ _. model.alone read file.now (content_view content)) stop) }
{
    let Content { includes, said } = content;
    if !includes.is_empty() {
        return Err(refused_includes(alloc, file)?);
    }
    Ok(said)
}

// The includes of a file, at the end of a chain on which so many includes more may stand behind them.
#[cycle(walk)]
fn each_include<T: Tree>(
    alloc: Global,
    tree: &mut T,
    listed: &TextSet,
    left: u32,
    chain: &[&str],
    read: &mut ReadFiles,
    includes: &[String],
) -> Result<Said, ConfigStop>
    requires { T.tells tree.old → AreHeld (T.contents tree.old) (has listed.now) }
    ensures found { IfOk result (λ said. T.tells tree.old → IsMeant (includes_mean (T.contents tree.old) (has listed.now) left (map (λ other. other.now) chain.now) (found_nothing (files_view read.old)) (map string_bytes includes.now)) (Ok (found_view read.new said))) }
    ensures refused { IfErr result (λ stop. IsCause (T.tells tree.old) (Rose (T.faults tree.old) (T.faults tree.new)) (includes_mean (T.contents tree.old) (has listed.now) left (map (λ other. other.now) chain.now) (found_nothing (files_view read.old)) (map string_bytes includes.now)) stop) }
    ensures read_once { IfOk result (λ said. ReadsAdded (length (files_view read.old)) (length (files_view read.new)) (T.reads tree.old) (T.reads tree.new)) }
    ensures read_at_most_once { T.tells tree.old → (neon : model.Neon) → IsNeon neon → ReadsWithin (length (files_view read.old)) (length (include_reads (T.contents tree.old) (has listed.now) left (map (λ other. other.now) chain.now) (files_view read.old) (map string_bytes includes.now) neon)) (T.reads tree.old) (T.reads tree.new) }
    ensures keeps { KeepsTree T.tells T.contents T.faults T.listings T.never_fails tree.old tree.new }
{
    let mut said = Said::nothing(alloc);
    for include in includes {
        if !read.has(include.as_str()) {
            match found_at(alloc, tree, listed, left, chain, read, include.as_str()) {
                Ok(first) => said = beside(said, first)?,
                Err(stop) => return Err(stop),
            }
        }
    }
    Ok(said)
}

/// A file at the end of a chain on which so many includes more may stand: what it says with its includes. Each file that is
/// read stands in `read` then, and is read there alone.
#[cycle(walk)]
pub(crate) fn found_at<T: Tree>(
    alloc: Global,
    tree: &mut T,
    listed: &TextSet,
    left: u32,
    chain: &[&str],
    read: &mut ReadFiles,
    file: &str,
) -> Result<Said, ConfigStop>
    requires held { T.tells tree.old → AreHeld (T.contents tree.old) (has listed.now) }
    requires unread { is_among (files_view read.old) file.now ≡ false }
    ensures found { IfOk result (λ said. T.tells tree.old → IsMeant (file_means (T.contents tree.old) (has listed.now) left (map (λ other. other.now) chain.now) (files_view read.old) file.now) (Ok (found_view read.new said))) }
    ensures refused { IfErr result (λ stop. IsCause (T.tells tree.old) (Rose (T.faults tree.old) (T.faults tree.new)) (file_means (T.contents tree.old) (has listed.now) left (map (λ other. other.now) chain.now) (files_view read.old) file.now) stop) }
    ensures read_once { IfOk result (λ said. ReadsAdded (length (files_view read.old)) (length (files_view read.new)) (T.reads tree.old) (T.reads tree.new)) }
    ensures read_at_most_once { T.tells tree.old → (neon : model.Neon) → IsNeon neon → ReadsWithin (length (files_view read.old)) (length (file_reads (T.contents tree.old) (has listed.now) left (map (λ other. other.now) chain.now) (files_view read.old) file.now neon)) (T.reads tree.old) (T.reads tree.new) }
    ensures keeps { KeepsTree T.tells T.contents T.faults T.listings T.never_fails tree.old tree.new }
{
    let content = match read_file(alloc, tree, listed, file) {
        Ok(content) => content,
        Err(stop) => return Err(stop),
    };
    read.add(alloc, file)?;
    if left == 0 {
        return alone(alloc, file, content);
    }
    let longer = longer(alloc, chain, file)?;
    let Content { includes, said } = content;
    if lead_back(&longer, &includes) {
        return Err(refused_includes(alloc, file)?);
    }
    match each_include(alloc, tree, listed, left - 1, &longer, read, &includes) {
        Ok(under) => Ok(over(said, under)?),
        Err(stop) => Err(stop),
    }
}
