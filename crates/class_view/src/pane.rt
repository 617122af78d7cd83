//! What lends published classes to a reader.

ghost use Rattle.class_view.specs.Below.{ℕ, List, IfOk, OnErr, FnOnceReturnsAt, Change, shown};
ghost use Rattle.std.specs.Prelude.{◌≡◌, ◌<◌, ◌≤◌};
ghost use Rattle.class_view.specs.Lists.{Follows, IsKept};

use class_table::ClassTable;

/// A pane had nothing to lend.
#[derive(Clone, Copy, PartialEq, Eq, Debug)]
pub struct Failed;

/// What lends published classes to a reader.
pub trait Pane {
    // What it lends from now on begins with this list. A pane that lends nothing any more knows every list.
    ghost knows: { Self → List Change → Type 0 };

    // How often it has failed.
    ghost faults: { Self → ℕ };

    /// Lends the published classes to a function, and gives its answer. They are what a list of changes shows that begins
    /// with all that this pane knew. It fails only where its count of faults rises.
    fn look<R, F: FnOnce(&ClassTable) -> R>(&mut self, f: F) -> Result<R, Failed>
        requires callable { F.IsAlwaysCallable f }
        ensures answer { IfOk result (λ r. (list : List Change) × FnOnceReturnsAt F.FnOnce f (shown list) r ×
            Follows (knows self.old) list × knows self.new list) }
        ensures kept { IsKept (knows self.old) (knows self.new) }
        ensures faults { faults self.old ≤ faults self.new }
        ensures failed { OnErr result (faults self.old < faults self.new) };
}
