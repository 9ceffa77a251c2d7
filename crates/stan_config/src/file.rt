//! One file is read and judged.

ghost use Rattle.std.specs.Prelude.{◌≡◌, ◌≤◌, ℕ, if◌then◌else◌, IfOk, IfErr, Ok, string_bytes};
ghost use Rattle.stan_config.specs.Neon.{IsMeant};
ghost use Rattle.stan_config.specs.Stops.{IsCause};
ghost use Rattle.stan_config.specs.Folder.{AreHeld, KeepsTree};
ghost use Rattle.stan_config.specs.Reads.{RoseAtMost};
ghost use Rattle.stan_config_paths.specs.TextSet.{has};
ghost use Rattle.stan_config_said.specs.Views.{content_view};
ghost use Rattle.stan_model_config.specs.Faults as faults;
ghost use Rattle.stan_model_config.specs.Files as model;
ghost use Rattle.stan_outside.specs.Outside.{Rose, RoseBy};

use crate::ConfigStop;
use stan_config_keys::file_fault;
use stan_config_paths::TextSet;
use stan_config_said::{Content, content_of};
use stan_model_config::place::Place;
use stan_neon::{NeonStop, Node, read};
use stan_outside::{Fail, Tree};
use std::alloc::Global;

/// How many bytes of a file are read: one more than it may have.
const MOST_READ: u32 = 67108865;

fn written(alloc: Global, place: Place) -> String
    ensures { string_bytes result ≡ faults.written place }
{
    match place {
        Place::Here => String::new(alloc),
        Place::Below(key) => key.into_string(),
    }
}

fn judge(alloc: Global, file: &str, node: Node) -> Result<Content, ConfigStop>
    ensures content { IfOk result (λ content. model.judged file.now node (faults.file_fault file.now node) ≡ Ok (content_view content)) }
    ensures refused { IfErr result (λ stop. IsCause (Unit {0}) ⊥ (λ _. model.judged file.now node (faults.file_fault file.now node)) stop) }
{
    match file_fault(alloc, file, &node)? {
        None => Ok(content_of(alloc, file, node)?),
        Some(place) => {
            let path = String::from_str(alloc, file)?;
            let key = written(alloc, place);
            Err(ConfigStop::BadConfig { path, key })
        }
    }
}

fn read_text(alloc: Global, file: &str, text: &[u8]) -> Result<Content, ConfigStop>
    ensures content { IfOk result (λ content. IsMeant (λ neon. model.read_as file.now (neon text.now)) (Ok (content_view content))) }
    ensures refused { IfErr result (λ stop. IsCause (Unit {0}) ⊥ (λ neon. model.read_as file.now (neon text.now)) stop) }
{
    match read(alloc, text) {
        Ok(node) => judge(alloc, file, node),
        Err(NeonStop::Bad { line }) => {
            let path = String::from_str(alloc, file)?;
            Err(ConfigStop::BadNeon { path, line })
        }
        Err(NeonStop::OutOfMemory) => Err(ConfigStop::OutOfMemory),
    }
}

/// What a file says by itself.
pub(crate) fn read_file<T: Tree>(
    alloc: Global,
    tree: &mut T,
    listed: &TextSet,
    file: &str,
) -> Result<Content, ConfigStop>
    requires { T.tells tree.old → AreHeld (T.contents tree.old) (has listed.now) }
    ensures content { IfOk result (λ content. T.tells tree.old → IsMeant (λ neon. model.content_at neon (T.contents tree.old) (has listed.now) file.now) (Ok (content_view content))) }
    ensures refused { IfErr result (λ stop. IsCause (T.tells tree.old) (Rose (T.faults tree.old) (T.faults tree.new)) (λ neon. model.content_at neon (T.contents tree.old) (has listed.now) file.now) stop) }
    ensures read_once { IfOk result (λ content. RoseBy 1 (T.reads tree.old) (T.reads tree.new)) }
    ensures read_at_most_once { RoseAtMost (if has listed.now file.now then 1 else 0) (T.reads tree.old) (T.reads tree.new) }
    ensures keeps { KeepsTree T.tells T.contents T.faults T.listings T.never_fails tree.old tree.new }
{
    if !listed.has(file) {
        let path = String::from_str(alloc, file)?;
        return Err(ConfigStop::Missing { path });
    }
    match tree.read(alloc, file, MOST_READ) {
        Ok(bytes) => read_text(alloc, file, &bytes),
        Err(Fail::Failed) => Err(ConfigStop::Tree),
        Err(Fail::OutOfMemory) => Err(ConfigStop::OutOfMemory),
    }
}
