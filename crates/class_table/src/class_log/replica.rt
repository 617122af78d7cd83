//! A list of changes, and the table of classes that it leads to.

ghost use Rattle.class_table.specs.Below.{[], map, length, IsTrue, IfOk, OnOk, OnErr};
ghost use Rattle.std.specs.Prelude.{◌≡◌, ◌+◌, ◌++◌, ◌∷◌, ◌↔◌};
ghost use Rattle.class_table.specs.Rebase.{told};
ghost use Rattle.class_table.specs.Refused.{WithMemory};
ghost use Rattle.class_table.specs.ClassLog.Change.{change_of};
ghost use Rattle.class_table.specs.ClassLog.Shown.{shown};
ghost use Rattle.class_table.specs.ClassLog.Refused.{AreMade, IsFit, refused};
ghost use Rattle.class_table.specs.ClassLog.Following.{BeginsWith, CanFollow, Continues};

use crate::class_log::apply::apply;
use crate::class_log::change::ClassChange;
use crate::class_log::fit::is_fit;
use crate::{ClassFault, ClassTable};
use py_node::OutOfMemory;
use std::alloc::Global;
use std::marker::Model;

/// Changes, and the classes that they show. Contracts see the changes.
#[derive(Drop)]
pub struct Replica {
    changes: Vec<ClassChange>,
    classes: ClassTable,
    alloc: Global,
}

impl Model for Replica {
    ghost use Rattle.std.specs.Prelude.{◌≡◌, List, map};
    ghost use Rattle.class_table.specs.ClassLog.Change.{Change, change_of};
    ghost use Rattle.class_table.specs.ClassLog.Shown.{shown};

    ghost Value = { List Change };

    ghost view = { λ r. map change_of r.changes.items };

    ghost invariant = { λ r. r.classes ≡ shown (map change_of r.changes.items) };
}

impl Replica {
    /// The classes before any change, and no changes.
    pub fn new(alloc: Global) -> Result<Replica, OutOfMemory>
        ensures { IfOk result (λ r. r ≡ []) }
    {
        Ok(Replica {
            changes: Vec::new(alloc),
            classes: ClassTable::without_rows(alloc)?,
            alloc,
        })
    }

    /// The classes: just those that the changes show.
    pub fn classes(&self) -> &ClassTable
        ensures { result.now ≡ shown self.now }
    {
        &self.classes
    }

    /// The changes, in the order in which they were made.
    pub fn changes(&self) -> &[ClassChange]
        ensures { map change_of result.now ≡ self.now }
    {
        self.changes.as_slice()
    }

    /// Whether a change can be made next: what it names is there, and where it makes a class, the number is greater than
    /// all there, and the flags and bases are those of its kind.
    pub fn is_fit(&self, change: &ClassChange) -> bool
        ensures { IsTrue result ↔ IsFit (shown self.now) (change_of change.now) }
    {
        is_fit(&self.classes, change)
    }

    /// Makes a change and adds it last. It is refused as a table of classes refuses it; then, and where memory runs out,
    /// changes and classes stay as they were.
    pub fn append(&mut self, change: &ClassChange) -> Result<(), ClassFault>
        requires fit { IsFit (shown self.old) (change_of change.now) }
        ensures added { OnOk result (self.new ≡ self.old ++ change_of change.now ∷ []) }
        ensures refused { WithMemory result (told result ≡ refused (shown self.old) (change_of change.now)) }
        ensures err { OnErr result (self.new ≡ self.old) }
    {
        if self.changes.reserve(1).is_err() {
            return Err(ClassFault::OutOfMemory);
        }
        let Ok(copy) = change.try_clone(self.alloc) else {
            return Err(ClassFault::OutOfMemory);
        };
        let alloc = self.alloc;
        match apply(&mut self.classes, alloc, change) {
            Ok(()) => {
                self.changes.push_reserved(copy);
                Ok(())
            }
            Err(fault) => Err(fault),
        }
    }

    // Makes some changes, one after the other.
    fn make_all(&mut self, rest: &[ClassChange]) -> Result<(), OutOfMemory>
        requires { AreMade (shown self.old) (map change_of rest.now) }
        ensures whole { OnOk result (self.new ≡ self.old ++ map change_of rest.now) }
        ensures left { Continues self.old self.new (map change_of rest.now) }
    {
        for change in rest {
            match self.append(change) {
                Ok(()) => {}
                Err(_) => return Err(OutOfMemory),
            }
        }
        Ok(())
    }

    /// Makes those changes of a log that stand past its own, and says how many they are. Where memory runs out, those
    /// that were made before stay made, and it can follow the log from there.
    pub fn follow(&mut self, log: &[ClassChange]) -> Result<u64, OutOfMemory>
        requires follows { CanFollow self.old (map change_of log.now) }
        ensures whole { OnOk result (self.new ≡ map change_of log.now) }
        ensures count { IfOk result (λ n. length self.old + n ≡ length log.now) }
        ensures kept { BeginsWith self.old self.new }
        ensures left { CanFollow self.new (map change_of log.now) }
    {
        let begin = self.changes().len();
        let rest = &log[begin..];
        self.make_all(rest)?;
        Ok(rest.len() as u64)
    }
}
