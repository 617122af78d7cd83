//! Turns, and what a locked value says of them.

/// A turn of a seat. No value of it is made: contracts speak of turns.
pub struct Turn<E> {
    /// The number of the seat whose turn it was.
    pub by: u32,
    /// What it left; `None` where the turn is empty.
    pub entry: Option<E>,
    /// Whether the turn was lost, as one is for which there was no memory.
    pub lost: bool,
}

/// A value that stands for a history of turns.
pub trait Turns {
    ghost use Rattle.std.specs.Prelude.{List};
    ghost use Rattle.seat_lock.specs.declared.history.Turn.{Turn};

    /// What a turn leaves.
    type Entry;

    /// The value stands for this history, whose first turn comes first.
    ghost stands: { Self → List (Turn Self.Entry) → Type 0 };
}
