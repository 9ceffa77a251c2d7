//! The report goes to the sink.

ghost use Rattle.std.specs.Prelude.{◌≡◌, ◌++◌, ◌≤◌, ◌^◌, ◌<◌, ℕ, length, take, IsOk, OnOk, OnErr};
ghost use Rattle.stan_outside.specs.Outside.{Rose};

use stan_outside::{Failed, Sink};

/// Writes a text piece by piece. After an `Err` a front of it was written.
pub fn write_text<K: Sink>(sink: &mut K, text: &[u8]) -> Result<(), Failed>
    ensures written { OnOk result (K.tells sink.old → K.written sink.new ≡ K.written sink.old ++ text.now) }
    ensures front { OnErr result (K.tells sink.old → (n : ℕ) × (n ≤ length text.now) × (K.written sink.new ≡ K.written sink.old ++ take n text.now)) }
    ensures failed { OnErr result (Rose (K.faults sink.old) (K.faults sink.new)) }
    ensures room { length text.now ≤ K.room sink.old → IsOk result × (K.faults sink.new ≡ K.faults sink.old) }
{
    let mut done = 0;
    while done < text.len() {
        match sink.write(&text[done..]) {
            Ok(taken) => done += taken,
            Err(failed) => return Err(failed),
        }
    }
    Ok(())
}
