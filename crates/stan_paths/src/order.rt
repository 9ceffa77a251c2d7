//! Paths in byte order.

ghost use Rattle.std.specs.Prelude.{map, string_bytes, OnOk};
ghost use Rattle.stan_paths.specs.Paths.{IsInOrder};

use stan_base::OutOfMemory;

/// Puts paths in byte order, each once. Where memory is wanting they stand in some order.
pub fn put_in_order(paths: &mut Vec<String>) -> Result<(), OutOfMemory>
    ensures { OnOk result (IsInOrder (map string_bytes paths.old.items) (map string_bytes paths.new.items)) }
{
    paths.sort()?;
    paths.dedup();
    Ok(())
}
