//! Plays rows of types: the text of each.
#![tactic(auto)]

mod counted;
mod operations;
mod parts;
mod reading;

use reading::FOLDERS;
use stan_rows::play;
use std::process::ExitCode;

fn main(rt: HostRuntime) -> ExitCode {
    play(&rt, &FOLDERS)
}
