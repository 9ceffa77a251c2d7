//! Plays rows of projects: what the configuration of each means, or why it is refused.
#![tactic(auto)]

mod project;
mod reading;
mod shown;

use reading::FOLDERS;
use stan_rows::play;
use std::process::ExitCode;

fn main(rt: HostRuntime) -> ExitCode {
    play(&rt, &FOLDERS)
}
