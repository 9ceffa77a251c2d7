//! The program: the words of the command line over the current folder. The report goes to standard output, and one
//! line about the run to standard error.
#![tactic(auto)]

use stan_cli::{Outcome, Refusal, WordsPart, run_alone};
use stan_outside::{FolderTree, StreamSink};
use std::process::ExitCode;
use std::rt::{Env, Files};
use std::{env, io};

fn main(rt: HostRuntime) -> ExitCode {
    let outcome = run(&rt);
    let _ = rt.eprintln(&outcome);
    ExitCode::from(outcome.status)
}

fn run<R: Env + Files + Print + AllocGlobal + Clone + Drop>(rt: &R) -> Outcome {
    match words(rt) {
        Ok(words) => {
            let mut tree = FolderTree::new(rt);
            let mut sink = StreamSink::new(io::writer(rt));
            run_alone(rt.alloc(), &words, &mut tree, &mut sink)
        }
        Err(refusal) => Outcome::refused(refusal),
    }
}

// The words after the program's name. One that is not UTF-8 is refused.
fn words<R: Env + AllocGlobal>(rt: &R) -> Result<Vec<String>, Refusal> {
    let all = match env::args(rt) {
        Ok(all) => all,
        Err(error) if error.kind() == io::ErrorKind::OutOfMemory => {
            return Err(Refusal::OutOfMemory);
        }
        Err(_) => {
            return Err(Refusal::BadWords {
                part: WordsPart::Options,
            });
        }
    };
    match all.skip(1).collect(rt.alloc()) {
        Ok(words) => Ok(words),
        Err(_) => Err(Refusal::OutOfMemory),
    }
}
