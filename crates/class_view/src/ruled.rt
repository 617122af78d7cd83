//! A pane over the reader of what is published.

ghost use Rattle.class_view.specs.Below.{List, IfOk, OnErr, IfSome, is_some, FnOnceReturnsAt, view, shown, BeginsWith};
ghost use Rattle.std.specs.Prelude.{◌≡◌, ◌≤◌};
ghost use Rattle.class_view.specs.Lists.{IsKept};
ghost use Rattle.class_view.specs.Known.{knows_of};

use crate::faults::Faults;
use crate::pane::{Failed, Pane};
use crate::rule::{Looker, Sees};
use crate::same::is_ahead;
use crate::writer::Told;
use class_table::ClassTable;

/// A pane over the classes that a writer publishes. It lends nothing any more once the writer has ended.
#[derive(Drop)]
pub struct RuledPane {
    pub reader: Option<Looker>,
    pub faults: Faults,
}

// Lends the classes that are published when it looks.
fn lend<R, F: FnOnce(&ClassTable) -> R>(reader: Looker, f: F) -> (Looker, Result<R, Failed>)
    requires { F.IsAlwaysCallable f }
    ensures answer { IfOk result.1 (λ r. FnOnceReturnsAt F.FnOnce f (shown (view result.0.place).seen) r) }
    ensures later { BeginsWith (view reader.place).seen (view result.0.place).seen }
{
    match reader.enter_as::<Sees>() {
        Ok(reading) => {
            let answer = f(reading.get().classes());
            (reading.leave(), Ok(answer))
        }
        Err(reader) => (reader, Err(Failed)),
    }
}

// The second reader, once it has seen a list that begins with all that the first has seen. There is none where the writer
// has ended.
fn follow(first: Looker, second: Looker) -> Option<Looker>
    ensures first { IfSome result (λ r. BeginsWith (view first.place).seen (view r.place).seen) }
    ensures second { IfSome result (λ r. BeginsWith (view second.place).seen (view r.place).seen) }
{
    let Ok(before) = first.enter_as::<Sees>() else {
        return None;
    };
    let Ok(after) = second.enter_as::<Sees>() else {
        before.leave();
        return None;
    };
    let follows = is_ahead(after.get(), before.get());
    before.leave();
    let reader = after.leave();
    if follows { Some(reader) } else { None }
}

impl RuledPane {
    // Takes in what a writer of the same view told. What is lent from now on begins with it. Where nothing can be lent any
    // more, the count of faults rises.
    pub(crate) fn learn(&mut self, told: Told)
        ensures kept { IsKept (knows_of self.old.reader) (knows_of self.new.reader) }
        ensures told { knows_of self.new.reader (view told.reader.place).seen }
        ensures faults { self.old.faults ≤ self.new.faults }
        ensures lost { self.old.faults ≡ self.new.faults → is_some self.new.reader ≡ is_some self.old.reader }
    {
        if let Some(first) = self.reader.take() {
            let Told { reader: second } = told;
            self.reader = follow(first, second);
            if self.reader.is_none() {
                self.faults.raise();
            }
        }
    }

    pub(crate) fn over(reader: Looker, faults: Faults) -> RuledPane {
        RuledPane {
            reader: Some(reader),
            faults,
        }
    }
}

impl Pane for RuledPane {
    ghost use Rattle.class_view.specs.Known.{knows_of};

    ghost knows = { λ p. knows_of p.reader };

    ghost faults = { λ p. p.faults };

    fn look<R, F: FnOnce(&ClassTable) -> R>(&mut self, f: F) -> Result<R, Failed> {
        let Some(reader) = self.reader.take() else {
            self.faults.raise();
            return Err(Failed);
        };
        let (reader, answer) = lend(reader, f);
        self.reader = Some(reader);
        if answer.is_err() {
            self.faults.raise();
        }
        answer
    }
}
