//! A copy of the classes, which takes in changes, and a change on its way to it.

ghost use Rattle.class_view.specs.Below.{IfOk, change_of};
ghost use Rattle.std.specs.Prelude.{◌≡◌};

use class_table::class_log::{ClassChange, Replica};
use left_right::Absorb;
use py_node::OutOfMemory;
use std::alloc::{AllocError, Global};
use std::marker::Model;

/// A change on its way to both copies. Contracts see the change that it stands for.
#[derive(Drop)]
pub struct Posting {
    change: ClassChange,
}

impl Model for Posting {
    ghost use Rattle.class_table.specs.ClassLog.Change.{Change, change_of};

    ghost Value = { Change };

    ghost view = { λ p. change_of p.change };
}

impl Posting {
    /// A copy of a change.
    pub(crate) fn of(alloc: Global, change: &ClassChange) -> Result<Posting, OutOfMemory>
        ensures { IfOk result (λ p. p ≡ change_of change.now) }
    {
        Ok(Posting {
            change: change.try_clone(alloc)?,
        })
    }
}

impl Absorb<Posting> for Replica {
    ghost use Rattle.std.specs.Prelude.{[], ◌∷◌, ◌++◌};

    // A clause reads an array as a list, of any length.
    type State = [Posting; 0];

    ghost state = { λ r. r };

    ghost applied = { λ xs x. xs ++ x ∷ [] };

    fn absorb_first(&mut self, posting: &Posting, _other: &Replica) -> Result<(), AllocError> {
        if !self.is_fit(&posting.change) {
            return Err(AllocError);
        }
        self.append(&posting.change).map_err(|_| AllocError)
    }
}
