//! Plays rows of the choice of files: paths in normal form, patterns, and which files of a listing a configuration chooses.
#![tactic(auto)]

mod configuration;
mod many;
mod reading;

use reading::FOLDERS;
use stan_rows::play;
use std::process::ExitCode;

fn main(rt: HostRuntime) -> ExitCode {
    play(&rt, &FOLDERS)
}
