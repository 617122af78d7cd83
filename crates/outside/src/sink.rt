//! What bytes are written to.

ghost use Rattle.outside.specs.Below.{ℕ, List, length, take, Option, None, Some, IfOk, IsOkAnd, OnErr, ForSome};
ghost use Rattle.std.specs.Prelude.{◌≡◌, ◌+◌, ◌<◌, ◌≤◌, ◌++◌};
ghost use Rattle.outside.specs.Count.{Rose};

use crate::source::Failed;

pub trait Sink {
    /// The bytes that it has taken, where it can tell them. `None` claims nothing.
    ghost taken: { Self → Option (List ℕ) } = { λ _. None };

    /// How often it has failed.
    ghost faults: { Self → ℕ };

    /// So many more bytes it takes without a failure.
    ghost sure: { Self → ℕ } = { λ _. 0 };

    /// Writes a front of the piece, and says how long a one.
    fn write(&mut self, piece: &[u8]) -> Result<usize, Failed>
        ensures part { IfOk result (λ n. n ≤ length piece.now) }

        // Of a piece that isn't empty it takes something, or fails.
        ensures some { IfOk result (λ n. 0 < length piece.now → 0 < n) }
        ensures taken { IfOk result (λ n. ForSome (taken self.old) (λ bytes.
            taken self.new ≡ Some (bytes ++ take n piece.now))) }

        // A failure takes nothing.
        ensures kept { OnErr result (taken self.new ≡ taken self.old) }
        ensures failed { OnErr result (Rose (faults self.old) (faults self.new)) }
        ensures later { faults self.old ≤ faults self.new }
        ensures sure { 0 < length piece.now → length piece.now ≤ sure self.old →
            IsOkAnd result (λ n. sure self.old ≤ sure self.new + n) };
}
