//! Plays rows of files: the tree of each, how deep it is, what its documentation comments belong to, or the line at which it has no tree.
#![tactic(auto)]

mod owners;
mod reading;
mod sources;

use reading::FOLDERS;
use stan_rows::play;
use std::process::ExitCode;

fn main(rt: HostRuntime) -> ExitCode {
    play(&rt, &FOLDERS)
}
