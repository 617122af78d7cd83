//! The writer.

ghost use Rattle.class_view.specs.Below.{[], length, map, IsTrue, IfOk, OnOk, OnErr, view as known_of, told, WithMemory, change_of, shown, IsFit, refused, BeginsWith, CanFollow};
ghost use Rattle.std.specs.Prelude.{◌≡◌, ◌<◌, ◌+◌, ◌^◌, ◌++◌, ◌∷◌, ◌↔◌};

use crate::press::Press;
use crate::rule::Looker;
use class_table::class_log::{ClassChange, Replica};
use class_table::{ClassFault, ClassTable};
use py_node::OutOfMemory;
use std::alloc::Global;
use std::marker::Model;
use std::sync::Wait;

/// What publishes changes of classes. It is not `Drop`: end it by `end`.
pub struct ClassWriter {
    press: Option<Press>,
}

impl Model for ClassWriter {
    ghost use Rattle.std.specs.Prelude.{IsSome};
    ghost use Rattle.class_view.specs.Posted.{Posted, posted_by};

    ghost Value = { Posted };

    ghost view = { λ w. posted_by w.press };

    ghost invariant = { λ w. IsSome w.press };
}

/// What a writer told of: all that was published.
#[derive(Drop)]
pub struct Told {
    pub reader: Looker,
}

impl ClassWriter {
    // Nothing is published, and there is room for so many readers and what is told.
    pub(crate) fn new(alloc: Global, places: usize) -> Result<ClassWriter, OutOfMemory>
        requires { (0 < places) × (places < 2 ^ 32) }
        ensures { IfOk result (λ w. (w.published ≡ []) × (w.changes ≡ [])) }
    {
        Ok(ClassWriter {
            press: Some(Press::new(alloc, places)?),
        })
    }

    fn press(&self) -> &Press
        ensures { result.now ≡ self.now }
    {
        match &self.press {
            Some(press) => press,
            None => unreachable!(),
        }
    }

    /// All changes, those that are published and those that are pending.
    pub fn changes(&self) -> &[ClassChange]
        ensures { map change_of result.now ≡ self.now.changes }
    {
        self.press().replica().changes()
    }

    /// The classes that all changes show, those that are pending too.
    pub fn classes(&self) -> &ClassTable
        ensures { result.now ≡ shown self.now.changes }
    {
        self.press().replica().classes()
    }

    /// Whether a change can be made next, as a replica tells it.
    pub fn is_fit(&self, change: &ClassChange) -> bool
        ensures { IsTrue result ↔ IsFit (shown self.now.changes) (change_of change.now) }
    {
        self.press().replica().is_fit(change)
    }

    /// Makes a change, which is then pending. It is refused as a replica refuses it; then, and where memory runs out,
    /// nothing changes.
    pub fn append(&mut self, change: &ClassChange) -> Result<(), ClassFault>
        requires fit { IsFit (shown self.old.changes) (change_of change.now) }
        ensures added { OnOk result (self.new.changes ≡ self.old.changes ++ change_of change.now ∷ []) }
        ensures refused { WithMemory result (told result ≡ refused (shown self.old.changes) (change_of change.now)) }
        ensures err { OnErr result (self.new.changes ≡ self.old.changes) }
        ensures published { self.new.published ≡ self.old.published }
    {
        match &mut self.press {
            Some(press) => press.append(change),
            None => unreachable!(),
        }
    }

    /// Makes those changes of a log that stand past its own, which are then pending, and says how many they are. Where
    /// memory runs out, those that were made before stay made, and it can follow the log from there.
    pub fn follow(&mut self, log: &[ClassChange]) -> Result<u64, OutOfMemory>
        requires follows { CanFollow self.old.changes (map change_of log.now) }
        ensures whole { OnOk result (self.new.changes ≡ map change_of log.now) }
        ensures count { IfOk result (λ n. length self.old.changes + n ≡ length log.now) }
        ensures kept { BeginsWith self.old.changes self.new.changes }
        ensures left { CanFollow self.new.changes (map change_of log.now) }
        ensures published { self.new.published ≡ self.old.published }
    {
        match &mut self.press {
            Some(press) => press.follow(log),
            None => unreachable!(),
        }
    }

    /// Publishes all that is pending, at once, or nothing where memory is wanting. It may wait for readers.
    pub fn publish<R: Wait>(&mut self, rt: &R) -> Result<(), OutOfMemory>
        ensures changes { self.new.changes ≡ self.old.changes }
        ensures ok { OnOk result (self.new.published ≡ self.old.changes) }
        ensures err { OnErr result (self.new.published ≡ self.old.published) }
    {
        let Some(press) = self.press.take() else {
            unreachable!()
        };
        let (press, published) = press.publish(rt);
        let old = std::mem::replace(&mut self.press, Some(press));
        let None = old else { unreachable!() };
        match published {
            Ok(()) => Ok(()),
            Err(_) => Err(OutOfMemory),
        }
    }

    pub(crate) fn reader(&self) -> Result<Looker, OutOfMemory>
        ensures { IfOk result (λ r. (known_of r.place).seen ≡ []) }
    {
        self.press().reader()
    }

    /// Tells of all that is published, and changes nothing. It takes no memory, and is refused where as many readers and
    /// tellings are about as the view has room for.
    pub fn tell(&mut self) -> Result<Told, OutOfMemory>
        ensures told { IfOk result (λ t. (known_of t.reader.place).seen ≡ self.old.published) }
        ensures same { self.new ≡ self.old }
    {
        match &mut self.press {
            Some(press) => press.tell(),
            None => unreachable!(),
        }
    }

    /// Gives the replica back, with all changes. It may wait for readers.
    pub fn end<R: Wait>(self, rt: &R) -> Replica
        ensures { result ≡ self.changes }
    {
        let ClassWriter { press } = self;
        match press {
            Some(press) => press.end(rt),
            None => unreachable!(),
        }
    }
}
