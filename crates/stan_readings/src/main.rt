//! Plays each row of the files below `data/`, a folder for each kind of reading.
#![tactic(auto)]

mod names;
mod outside;
mod reading;
mod tokens;
mod trees;

use reading::FOLDERS;
use stan_rows::play;
use std::process::ExitCode;

fn main(rt: HostRuntime) -> ExitCode {
    play(&rt, &FOLDERS)
}
