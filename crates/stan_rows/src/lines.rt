//! The rows of a text.

ghost use Rattle.std.specs.Prelude.{◌≡◌, ◌++◌, [], ◌∷◌, IfOk, OnOk, filter, map, string_bytes};
ghost use Rattle.stan_rows.specs.Rows.{is_row, rows_of};

use stan_base::OutOfMemory;
use std::alloc::Global;

// Adds a line that is a row.
fn take_line(alloc: Global, rows: &mut Vec<String>, line: &str) -> Result<(), OutOfMemory>
    ensures { OnOk result (map string_bytes rows.new.items ≡ map string_bytes rows.old.items ++ filter is_row (line.now ∷ [])) }
{
    if line.is_empty() || line.starts_with("# ") {
        return Ok(());
    }
    rows.push(String::from_str(alloc, line)?)?;
    Ok(())
}

/// The rows of a text, in its order: its lines, without those that are empty and those that begin with `# `.
pub fn rows(alloc: Global, text: &str) -> Result<Vec<String>, OutOfMemory>
    ensures { IfOk result (λ rows. map string_bytes rows.items ≡ rows_of text.now) }
{
    let mut rows = Vec::new(alloc);
    for line in text.split('\n') {
        take_line(alloc, &mut rows, line)?;
    }
    Ok(rows)
}
