//! The cases of a text are read, line by line.

ghost use Rattle.std.specs.Prelude.{◌≡◌, ◌++◌, [], ◌∷◌, IfOk, OnOk, map};
ghost use Rattle.stan_case_text.specs.Cases.{name_of, lines_of, names_begun};

use crate::case::{Case, Unread, Why};
use std::alloc::Global;

fn take_line(alloc: Global, cases: &mut Vec<Case>, line: &str) -> Result<(), Why>
    ensures { OnOk result (map name_of cases.new.items ≡ map name_of cases.old.items ++ names_begun (line.now ∷ [])) }
{
    if line.is_empty() || line.starts_with('#') {
        return Ok(());
    }
    if let Some(name) = line.strip_prefix("case ") {
        cases.push(Case::new(alloc, name)?)?;
        return Ok(());
    }
    match cases.last_mut() {
        Some(case) => case.take_line(alloc, line),
        None => Err(Why::Form),
    }
}

/// The cases of a text, in its order.
pub fn read_cases(alloc: Global, text: &str) -> Result<Vec<Case>, Unread>
    ensures names { IfOk result (λ cases. map name_of cases.items ≡ names_begun (lines_of text.now)) }
{
    let mut cases = Vec::new(alloc);
    for (place, line) in text.split('\n').enumerate() {
        if let Err(why) = take_line(alloc, &mut cases, line) {
            return Err(Unread {
                line: place.saturating_add(1),
                why,
            });
        }
    }
    Ok(cases)
}
