//! Plays each case of the files below `cases/`, and prints a line for each: `ok NAME`, or `WRONG NAME:` and what came
//! and what was wanted. The last line counts both. The status is 0 where no case is wrong, else 1.
#![tactic(auto)]

mod play;

use play::what_is_wrong;
use stan_case_text::{Case, read_cases};
use std::process::ExitCode;
use std::rt::Files;
use std::{fs, io};

#[derive(Clone, Copy)]
struct Score {
    ok: u64,
    wrong: u64,
}

fn main(rt: HostRuntime) -> ExitCode {
    match run(&rt) {
        Ok(0) => ExitCode::SUCCESS,
        Ok(_) => ExitCode::FAILURE,
        Err(error) => {
            let _ = rt.eprintln(&error);
            ExitCode::FAILURE
        }
    }
}

// How many cases are wrong.
fn run<R: Files + Print + AllocGlobal + Clone + Drop>(rt: &R) -> io::Result<u64> {
    let mut score = Score { ok: 0, wrong: 0 };
    for name in &case_files(rt)? {
        play_file(rt, name, &mut score)?;
    }
    let Score { ok, wrong } = score;
    println!(rt; "{ok} ok, {wrong} wrong")?;
    Ok(wrong)
}

// The names of the files of cases, in byte order.
fn case_files<R: Files + AllocGlobal + Clone + Drop>(rt: &R) -> io::Result<Vec<String>> {
    let mut names = Vec::new(rt.alloc());
    for entry in fs::read_dir(rt, "cases")? {
        names.push(String::from_str(rt.alloc(), entry?.file_name())?)?;
    }
    names.sort()?;
    Ok(names)
}

fn play_file<R: Files + Print + AllocGlobal>(
    rt: &R,
    name: &str,
    score: &mut Score,
) -> io::Result<()> {
    let path = format!(in rt.alloc(); "cases/{name}")?;
    let text = fs::read_to_string(rt, path)?;
    match read_cases(rt.alloc(), &text) {
        Ok(cases) => {
            for case in cases {
                play_case(rt, case, score)?;
            }
            Ok(())
        }
        Err(unread) => {
            score.wrong = score.wrong.saturating_add(1);
            println!(rt; "WRONG {name}: {unread}")
        }
    }
}

fn play_case<R: Print + AllocGlobal>(rt: &R, case: Case, score: &mut Score) -> io::Result<()> {
    let name = case.name.clone()?;
    let Ok(wrong) = what_is_wrong(rt.alloc(), case) else {
        return Err(io::Error::from(io::ErrorKind::OutOfMemory));
    };
    if wrong.is_empty() {
        score.ok = score.ok.saturating_add(1);
        println!(rt; "ok {name}")
    } else {
        score.wrong = score.wrong.saturating_add(1);
        println!(rt; "WRONG {name}: {wrong}")
    }
}
