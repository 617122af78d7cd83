//! What publishes: a replica, of which a beginning is published.

ghost use Rattle.class_view.specs.Below.{[], length, drop, map, IsTrue, IfOk, OnOk, OnErr, MatchResult, view as known_of, told, WithMemory, change_of, shown, IsFit, refused, BeginsWith, CanFollow};
ghost use Rattle.std.specs.Prelude.{◌≡◌, ◌<◌, ◌≤◌, ◌^◌, ◌++◌, ◌∷◌, ◌+◌};

use crate::copy::Posting;
use crate::rule::{Looker, Notes, Publisher, Sees};
use crate::writer::Told;
use class_table::ClassFault;
use class_table::class_log::{ClassChange, Replica};
use left_right::writer::Writer;
use py_node::OutOfMemory;
use std::alloc::{AllocError, Global};
use std::marker::Model;
use std::sync::Wait;

// It is not `Drop`: it ends by `end`.
pub(crate) struct Press {
    replica: Replica,
    publisher: Publisher,
    // So many changes of the replica are with the publisher.
    fed: usize,
    alloc: Global,
}

impl Model for Press {
    ghost use Rattle.std.specs.Prelude.{◌≡◌, ◌≤◌, ◌++◌, drop, length};
    ghost use Rattle.class_view.specs.Posted.{Posted};
    ghost use Rattle.left_right.specs.Sides.{view as known_of};

    ghost Value = { Posted };

    ghost view = { λ w. record { published = w.publisher.desk.shown.value; changes = w.replica } };

    ghost invariant = { λ w. ((known_of w.publisher.desk.place).seen ≡ w.publisher.desk.shown.value) × (w.fed ≤ length w.replica) × (w.publisher.desk.shown.value ++ (drop w.publisher.behind w.publisher.log.items ++ drop w.fed w.replica) ≡ w.replica) };
}

// Hands a change to the publisher. Where memory runs out, the publisher is as it was.
fn hand(publisher: &mut Publisher, alloc: Global, change: &ClassChange) -> Result<(), OutOfMemory>
    ensures desk { publisher.new.desk ≡ publisher.old.desk }
    ensures ok { OnOk result (drop publisher.new.behind publisher.new.log.items ≡
        drop publisher.old.behind publisher.old.log.items ++ change_of change.now ∷ []) }
    ensures err { OnErr result (drop publisher.new.behind publisher.new.log.items ≡
        drop publisher.old.behind publisher.old.log.items) }
{
    let posting = Posting::of(alloc, change)?;
    match publisher.append(posting) {
        Ok(()) => Ok(()),
        Err(_) => Err(OutOfMemory),
    }
}

// Hands the changes from the number `fed` on to the publisher. It returns how many it then has, and whether they are all.
fn feed(publisher: &mut Publisher, alloc: Global, replica: &Replica, fed: usize) -> (usize, bool)
    requires { fed ≤ length replica.now }
    ensures desk { publisher.new.desk ≡ publisher.old.desk }
    ensures most { result.0 ≤ length replica.now }
    ensures pending { drop publisher.new.behind publisher.new.log.items ++ drop result.0 replica.now ≡
        drop publisher.old.behind publisher.old.log.items ++ drop fed replica.now }
    ensures full { IsTrue result.1 → drop result.0 replica.now ≡ [] }
{
    let changes = replica.changes();
    let mut fed = fed;
    while fed < changes.len() {
        match hand(publisher, alloc, &changes[fed]) {
            Ok(()) => fed += 1,
            Err(_) => break,
        }
    }
    (fed, fed == changes.len())
}

impl Press {
    // Nothing is published, and there is room for so many readers and what is told.
    pub(crate) fn new(alloc: Global, places: usize) -> Result<Press, OutOfMemory>
        requires { (0 < places) × (places < 2 ^ 32) }
        ensures { IfOk result (λ w. (w.published ≡ []) × (w.changes ≡ [])) }
    {
        let replica = Replica::new(alloc)?;
        let first = Replica::new(alloc)?;
        let publisher = Writer::new(alloc, first, Replica::new(alloc)?, places)?;
        Ok(Press {
            replica,
            publisher,
            fed: 0,
            alloc,
        })
    }

    // The replica, with all changes.
    pub(crate) fn replica(&self) -> &Replica
        ensures { result.now ≡ self.now.changes }
    {
        &self.replica
    }

    // Makes a change, which is then pending.
    pub(crate) fn append(&mut self, change: &ClassChange) -> Result<(), ClassFault>
        requires fit { IsFit (shown self.old.changes) (change_of change.now) }
        ensures added { OnOk result (self.new.changes ≡ self.old.changes ++ change_of change.now ∷ []) }
        ensures refused { WithMemory result (told result ≡ refused (shown self.old.changes) (change_of change.now)) }
        ensures err { OnErr result (self.new.changes ≡ self.old.changes) }
        ensures published { self.new.published ≡ self.old.published }
    {
        self.replica.append(change)
    }

    // Makes those changes of a log that stand past its own, which are then pending.
    pub(crate) fn follow(&mut self, log: &[ClassChange]) -> Result<u64, OutOfMemory>
        requires follows { CanFollow self.old.changes (map change_of log.now) }
        ensures whole { OnOk result (self.new.changes ≡ map change_of log.now) }
        ensures count { IfOk result (λ n. length self.old.changes + n ≡ length log.now) }
        ensures kept { BeginsWith self.old.changes self.new.changes }
        ensures left { CanFollow self.new.changes (map change_of log.now) }
        ensures published { self.new.published ≡ self.old.published }
    {
        self.replica.follow(log)
    }

    // Publishes all that is pending, at once, or nothing where memory is wanting. It may wait for readers.
    pub(crate) fn publish<R: Wait>(self, rt: &R) -> (Press, Result<(), AllocError>)
        ensures { MatchResult result.1 (λ _. (result.0.published ≡ self.changes) × (result.0.changes ≡ self.changes)) (λ _. result.0 ≡ self) }
    {
        let Press {
            replica,
            mut publisher,
            fed,
            alloc,
        } = self;
        let (fed, all) = feed(&mut publisher, alloc, &replica, fed);
        if !all {
            let press = Press {
                replica,
                publisher,
                fed,
                alloc,
            };
            return (press, Err(AllocError));
        }
        let (publisher, published) = publisher.publish_as::<Sees, R>(rt);
        let press = Press {
            replica,
            publisher,
            fed,
            alloc,
        };
        (press, published)
    }

    // A reader that has seen nothing.
    pub(crate) fn reader(&self) -> Result<Looker, OutOfMemory>
        ensures { IfOk result (λ r. (known_of r.place).seen ≡ []) }
    {
        Ok(self.publisher.factory().reader()?)
    }

    // Tells of all that is published. It changes nothing.
    pub(crate) fn tell(&mut self) -> Result<Told, OutOfMemory>
        ensures told { IfOk result (λ t. (known_of t.reader.place).seen ≡ self.old.published) }
        ensures same { self.new ≡ self.old }
    {
        let mut reader = self.publisher.factory().reader()?;
        reader.learn::<Notes>(self.publisher.tell::<Notes>());
        Ok(Told { reader })
    }

    // Gives the replica back. It may wait for readers.
    pub(crate) fn end<R: Wait>(self, rt: &R) -> Replica
        ensures { result ≡ self.changes }
    {
        let Press {
            replica,
            publisher,
            fed: _,
            alloc: _,
        } = self;
        drop(publisher.take(rt));
        replica
    }
}
