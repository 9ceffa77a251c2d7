//! Plays each row of the files below `data/`, a folder for each kind of reading of a PHPDoc comment.
#![tactic(auto)]

mod reading;

use reading::FOLDERS;
use stan_rows::play;
use std::process::ExitCode;

fn main(rt: HostRuntime) -> ExitCode {
    play(&rt, &FOLDERS)
}
