//! What bytes are read from.

ghost use Rattle.outside.specs.Below.{ℕ, List, [], length, Option, None, IsOk, IfOk, OnErr, ForSome};
ghost use Rattle.std.specs.Prelude.{◌≡◌, ◌<◌, ◌≤◌};
ghost use Rattle.outside.specs.Count.{Rose};
ghost use Rattle.outside.specs.Source.{Moves};

use thiserror::Error;

/// A read or a write failed.
#[derive(Clone, Copy, Debug, PartialEq, Eq, Error)]
#[error("a read or a write failed")]
pub struct Failed;

pub trait Source {
    /// The bytes that it has still to give, where it can tell them. `None` claims nothing.
    ghost left: { Self → Option (List ℕ) } = { λ _. None };

    /// How often it has failed.
    ghost faults: { Self → ℕ };

    /// It never fails.
    ghost quiet: { Self → Type 0 } = { λ _. ⊥ };

    /// Reads some bytes into the buffer's front, and says how many.
    fn read(&mut self, buf: &mut [u8]) -> Result<usize, Failed>
        ensures room { IfOk result (λ n. n ≤ length buf.old) }
        ensures moved { IfOk result (λ n. ForSome (left self.old) (λ bytes.
            Moves bytes (left self.new) buf.old buf.new n)) }

        // A buffer that has room is given nothing only at the end.
        ensures end { IfOk result (λ n. ForSome (left self.old) (λ bytes. n ≡ 0 → 0 < length buf.old → bytes ≡ [])) }

        // A failure moves nothing.
        ensures kept { OnErr result (left self.new ≡ left self.old) }
        ensures failed { OnErr result (Rose (faults self.old) (faults self.new)) }
        ensures later { faults self.old ≤ faults self.new }
        ensures quiet { quiet self.old → IsOk result × quiet self.new };
}
