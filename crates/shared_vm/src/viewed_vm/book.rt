//! The book of a machine with a view: a book, and a writer that follows the log of its machine's classes.

ghost use Rattle.shared_vm.specs.Below.{[], length, map, vec_len, IfOk, OnOk, true, false, tree_of, change_of, BeginsWith, CanFollow, posted};
ghost use Rattle.std.specs.Prelude.{◌≡◌, ◌<◌, ◌+◌, ◌^◌};
ghost use Rattle.shared_vm.specs.Book.{IsNameOf, IsTrue, Stepped};
ghost use Rattle.shared_vm.specs.ViewedVm.Viewed.{IsTold, Publishes};

use crate::{Book, Closed, Entry, ExecFault, Receipt};
use class_table::class_log::ClassChange;
use class_table::class_log::laws::a_log_can_be_followed;
use class_view::{ClassReader, ClassView, ClassWriter, RuledPane, Told};
use py_node::{Command, OutOfMemory, PyStrInterned};
use seat_lock::Turns;
use std::alloc::Global;
use std::marker::Model;
use std::sync::Wait;

/// A book, and a writer of its machine's classes: the changes that the writer has are the first ones of the machine's log.
/// It is not `Drop`: end it by `into_closed`.
pub struct ViewedBook {
    book: Book,
    writer: ClassWriter,
}

impl Model for ViewedBook {
    ghost use Rattle.shared_vm.specs.ViewedVm.Viewed.{Viewed, IsBehind};

    ghost Value = { Viewed };

    ghost use Rattle.std.specs.Coded.{codes};
    ghost use Rattle.py_node.specs.contracts.expr.Expr as expr;

    ghost coded = { Prim.hlevel (codes, expr.the_row.coded) };

    ghost view = { λ a. record { book = a.book; view = a.writer } };

    ghost invariant = { λ a. IsBehind (record { book = a.book; view = a.writer }) };
}

impl Turns for ViewedBook {
    ghost use Rattle.shared_vm.specs.ViewedVm.Viewed.{StandsFor};

    type Entry = Entry;

    ghost stands = { StandsFor };
}

// Makes and publishes the changes of a log that are new to the writer, and tells how many they are and of all of them.
fn send<R: Wait>(
    writer: &mut ClassWriter,
    rt: &R,
    log: &[ClassChange],
) -> Result<(u64, Told), OutOfMemory>
    requires follows { CanFollow writer.old.changes (map change_of log.now) }
    ensures count { IfOk result (λ r. length writer.old.changes + r.0 ≡ length log.now) }
    ensures told { IfOk result (λ r. IsTold r.1 (map change_of log.now)) }
    ensures whole { OnOk result (writer.new ≡ posted (map change_of log.now) (map change_of log.now)) }
    ensures behind { BeginsWith writer.new.changes (map change_of log.now) }
{
    let count = writer.follow(log)?;
    writer.publish(rt)?;
    let told = writer.tell()?;
    Ok((count, told))
}

impl ViewedBook {
    /// A new machine with an empty journal and a view of nothing but the first classes, with so many readers. Where it is
    /// refused, it may wait.
    pub fn new<R: Wait>(
        rt: &R,
        alloc: Global,
        readers: u32,
    ) -> Result<(ViewedBook, Vec<ClassReader<RuledPane>>), OutOfMemory>
        requires readers { (0 < readers) × (readers < 2 ^ 31) }
        ensures journal { IfOk result (λ made. made.0.book.journal ≡ []) }
        ensures clear { IfOk result (λ made. made.0.book.machine.failed ≡ false) }
        ensures view { IfOk result (λ made. made.0.view ≡ posted [] []) }
        ensures readers { IfOk result (λ made. vec_len made.1 ≡ readers) }
    {
        let book = Book::new(alloc)?;
        let (writer, row) = ClassView::new(rt, alloc, readers)?;
        a_log_can_be_followed();
        Ok((ViewedBook { book, writer }, row))
    }

    /// As `Book::step`. It publishes nothing.
    pub fn step(&mut self, seat: u32, command: Command, budget: u64) -> Result<Receipt, ExecFault>
        ensures step { Stepped self.old.book self.new.book seat (tree_of command.expr) budget result }
        ensures keeps { IsTrue self.new.book }
        ensures view { self.new.view ≡ self.old.view }
    {
        a_log_can_be_followed();
        self.book.step(seat, command, budget)
    }

    /// As `Book::interned`.
    pub fn interned(&self, text: &str) -> Option<PyStrInterned>
        ensures name { IsNameOf result self.now.book text.now }
        ensures keeps { IsTrue self.now.book }
    {
        self.book.interned(text)
    }

    /// Publishes the classes of the machine as they are now, at once, and tells of them, with how many of its changes are
    /// new to the view. Where memory can't be had, no machine fails, and it can be asked again. It may wait for readers.
    pub fn publish<R: Wait>(&mut self, rt: &R) -> Result<(u64, Told), ExecFault>
        ensures published { Publishes self.old self.new result }
        ensures keeps { IsTrue self.new.book }
    {
        let _entries = self.book.journal();
        if self.book.machine().has_failed() {
            return Err(ExecFault::Failed {
                after: self.book.journal().len(),
            });
        }
        a_log_can_be_followed();
        match send(&mut self.writer, rt, self.book.machine().class_log()) {
            Ok(sent) => Ok(sent),
            Err(_) => Err(ExecFault::OutOfMemory),
        }
    }

    /// Ends the book and its view. It may wait for readers.
    pub fn into_closed<R: Wait>(self, rt: &R) -> Closed
        ensures journal { result.journal.items ≡ self.book.journal }
        ensures machine { result.machine ≡ self.book.machine }
        ensures keeps { IsTrue self.book }
    {
        let ViewedBook { book, writer } = self;
        drop(writer.end(rt));
        book.into_closed()
    }
}
