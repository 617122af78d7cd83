//! All of a text to a sink, however short its writes.

ghost use Rattle.outside.specs.Below.{ℕ, length, take, Some, IsOk, OnOk, OnErr, ForSome};
ghost use Rattle.std.specs.Prelude.{◌≡◌, ◌<◌, ◌≤◌, ◌++◌};
ghost use Rattle.outside.specs.Count.{Rose};

use crate::sink::Sink;
use crate::source::Failed;

/// Writes all the bytes, or fails where the sink does.
pub fn write_all<K: Sink>(sink: &mut K, bytes: &[u8]) -> Result<(), Failed>
    ensures all { OnOk result (ForSome (K.taken sink.old) (λ old. K.taken sink.new ≡ Some (old ++ bytes.now))) }

    // What was taken before a failure is a front of the bytes, and not all.
    ensures front { OnErr result (ForSome (K.taken sink.old) (λ old.
        (n : ℕ) × (n < length bytes.now) × (K.taken sink.new ≡ Some (old ++ take n bytes.now)))) }
    ensures failed { OnErr result (Rose (K.faults sink.old) (K.faults sink.new)) }
    ensures later { K.faults sink.old ≤ K.faults sink.new }
    ensures sure { length bytes.now ≤ K.sure sink.old → IsOk result }
{
    let mut at = 0;
    while at < bytes.len() {
        at += sink.write(&bytes[at..])?;
    }
    Ok(())
}
