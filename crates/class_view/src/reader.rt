//! A reader over any pane.

ghost use Rattle.class_view.specs.Below.{List, IfOk, OnErr, option_map, is_some, view, is_same_name, found, is_sub, lin, numbers, Change, shown};
ghost use Rattle.std.specs.Prelude.{◌≡◌, ◌<◌, ◌≤◌};
ghost use Rattle.class_view.specs.Found.{IsGone};
ghost use Rattle.class_view.specs.Lists.{Follows, IsKept};
ghost use Rattle.class_view.specs.Known.{knows_of};

use crate::answers::{find, is_subclass, linearisation};
use crate::pane::{Failed, Pane};
use crate::ruled::RuledPane;
use crate::writer::Told;
use py_node::{OutOfMemory, PyObjectRef, PyStrInterned, PyTypeRef};

/// The pane failed in this call.
#[derive(Clone, Copy, PartialEq, Eq, Debug)]
pub struct Gone;

/// Why there is no linearisation.
#[derive(Clone, Copy, PartialEq, Eq, Debug)]
pub enum ReaderFault {
    /// The pane failed in this call.
    Gone,
    /// Memory could not be had.
    OutOfMemory,
}

/// What reads classes through a pane. No call of it waits.
#[derive(Drop)]
pub struct ClassReader<P: Pane + Drop> {
    pub pane: P,
}

impl<P: Pane + Drop> ClassReader<P> {
    /// A reader over a pane.
    pub fn new(pane: P) -> ClassReader<P>
        ensures { result.pane ≡ pane }
    {
        ClassReader { pane }
    }

    /// The value of a name in the first class along the linearisation of a class that has it: None where there is no such
    /// class or value. It is so after a list of published changes that begins with all that this reader saw or was told of.
    pub fn find(
        &mut self,
        class: PyTypeRef,
        name: PyStrInterned,
    ) -> Result<Option<PyObjectRef>, Gone>
        ensures answer { IfOk result (λ v. (list : List Change) × (v ≡ found is_same_name (shown list) class.0 name) ×
            Follows (P.knows self.old.pane) list × P.knows self.new.pane list) }
        ensures kept { IsKept (P.knows self.old.pane) (P.knows self.new.pane) }
        ensures faults { P.faults self.old.pane ≤ P.faults self.new.pane }
        ensures gone { OnErr result (P.faults self.old.pane < P.faults self.new.pane) }
    {
        match self.pane.look(|classes| find(classes, class, name)) {
            Ok(found) => Ok(found),
            Err(Failed) => Err(Gone),
        }
    }

    /// Whether a class is another one or has it along its linearisation: a class that isn't there does not. It is so after
    /// a list of published changes that begins with all that this reader saw or was told of.
    pub fn is_subclass(&mut self, class: PyTypeRef, other: PyTypeRef) -> Result<bool, Gone>
        ensures answer { IfOk result (λ b. (list : List Change) × (b ≡ is_sub (shown list) class.0 other.0) ×
            Follows (P.knows self.old.pane) list × P.knows self.new.pane list) }
        ensures kept { IsKept (P.knows self.old.pane) (P.knows self.new.pane) }
        ensures faults { P.faults self.old.pane ≤ P.faults self.new.pane }
        ensures gone { OnErr result (P.faults self.old.pane < P.faults self.new.pane) }
    {
        match self.pane.look(|classes| is_subclass(classes, class, other)) {
            Ok(derives) => Ok(derives),
            Err(Failed) => Err(Gone),
        }
    }

    /// The linearisation of a class: None where there is no such class. It is so after a list of published changes that
    /// begins with all that this reader saw or was told of.
    pub fn linearisation(&mut self, class: PyTypeRef) -> Result<Option<Vec<PyTypeRef>>, ReaderFault>
        ensures answer { IfOk result (λ o. (list : List Change) ×
            (option_map (λ v. numbers v.items) o ≡ lin (shown list) class.0) ×
            Follows (P.knows self.old.pane) list × P.knows self.new.pane list) }
        ensures kept { IsKept (P.knows self.old.pane) (P.knows self.new.pane) }
        ensures faults { P.faults self.old.pane ≤ P.faults self.new.pane }
        ensures gone { IsGone result (P.faults self.old.pane) (P.faults self.new.pane) }
    {
        match self.pane.look(|classes| linearisation(classes, class)) {
            Ok(Ok(line)) => Ok(line),
            Ok(Err(OutOfMemory)) => Err(ReaderFault::OutOfMemory),
            Err(Failed) => Err(ReaderFault::Gone),
        }
    }
}

impl ClassReader<RuledPane> {
    /// Takes in what a writer told. The lists of later answers begin with it. Where the pane can lend nothing any more, as
    /// once the writer has ended, its count of faults rises.
    pub fn learn(&mut self, told: Told)
        ensures kept { IsKept (knows_of self.old.pane.reader) (knows_of self.new.pane.reader) }
        ensures told { knows_of self.new.pane.reader (view told.reader.place).seen }
        ensures faults { self.old.pane.faults ≤ self.new.pane.faults }
        ensures lost { self.old.pane.faults ≡ self.new.pane.faults →
            is_some self.new.pane.reader ≡ is_some self.old.pane.reader }
    {
        self.pane.learn(told);
    }
}
