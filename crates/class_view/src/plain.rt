//! A pane over one replica. It never fails.

ghost use Rattle.std.specs.Prelude.{◌≡◌};

use crate::pane::{Failed, Pane};
use class_table::ClassTable;
use class_table::class_log::Replica;

/// A pane over one replica, whose classes it lends. It never fails.
#[derive(Drop)]
pub struct PlainPane {
    pub replica: Replica,
}

impl PlainPane {
    /// Lends the classes of a replica.
    pub fn new(replica: Replica) -> PlainPane
        ensures { result.replica ≡ replica }
    {
        PlainPane { replica }
    }
}

impl Pane for PlainPane {
    ghost use Rattle.class_table.specs.ClassLog.Following.{BeginsWith};

    ghost knows = { λ p list. BeginsWith list p.replica };

    ghost faults = { λ p. 0 };

    fn look<R, F: FnOnce(&ClassTable) -> R>(&mut self, f: F) -> Result<R, Failed> {
        Ok(f(self.replica.classes()))
    }
}
