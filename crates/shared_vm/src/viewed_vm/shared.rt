//! The shared machine with a view.

ghost use Rattle.shared_vm.specs.Below.{ℕ, List, [], length, vec_len, true, false, Some, slice_get, IsOk, IfOk, All, tree_of, Turn, turns_by, IsWhole, IsFree, IsSameSeat, fresh_seat, with_turn};
ghost use Rattle.std.specs.Prelude.{◌≡◌, ◌<◌, ◌^◌, ◌++◌, ◌∷◌};
ghost use mathlib.Core.List.{IsPrefix};
ghost use Rattle.shared_vm.specs.declared.entry.Entry.{Entry};
ghost use Rattle.shared_vm.specs.Journal.{Legal, plain_journal};
ghost use Rattle.shared_vm.specs.Book.{IsReplay};
ghost use Rattle.shared_vm.specs.Turns.{entries_in, has_lost, newest, Executed, Named};
ghost use Rattle.shared_vm.specs.ViewedVm.Viewed.{StandsFor};
ghost use Rattle.shared_vm.specs.ViewedVm.Published.{Published};

use crate::viewed_vm::book::ViewedBook;
use crate::{Closed, ExecFault, Receipt};
use class_view::{ClassReader, RuledPane, Told};
use py_node::{Command, OutOfMemory, PyStrInterned};
use seat_lock::{LockSeat, MOST_TURNS, SeatLock};
use std::alloc::Global;
use std::marker::Model;
use std::sync::Wait;

/// A caller's seat at the shared machine. Its turns are the commands that it executed, and what it published.
pub type ViewedSeat = LockSeat<ViewedBook>;

/// A machine that callers share by reference, each with a seat of its own, and whose classes readers look up without
/// waiting. It is not `Drop`: end it by `close`.
pub struct ViewedVm {
    lock: SeatLock<ViewedBook>,
}

impl Model for ViewedVm {
    ghost use Rattle.seat_lock.specs.Known.{Lock};

    ghost Value = { Lock };

    ghost view = { λ a. a.lock };
}

impl ViewedVm {
    /// A new machine with so many seats, which are numbered from 0 in the list's order, and so many readers, at least one
    /// of each. No seat has seen or made a turn; the readers look up the first classes until more are published. Where it
    /// is refused, it may wait.
    pub fn new<R: Wait>(
        rt: &R,
        alloc: Global,
        seats: u32,
        readers: u32,
    ) -> Result<(ViewedVm, Vec<ViewedSeat>, Vec<ClassReader<RuledPane>>), OutOfMemory>
        requires some_seat { 0 < seats }
        requires some_reader { (0 < readers) × (readers < 2 ^ 31) }
        ensures vm { IfOk result (λ made. made.0.seats ≡ seats) }
        ensures len { IfOk result (λ made. vec_len made.1 ≡ seats) }
        ensures seats { IfOk result (λ made.
            (k : ℕ) → k < seats → slice_get made.1.items k ≡ Some (fresh_seat made.0.id k)) }
        ensures free { IfOk result (λ made. All (IsFree made.0.id) made.1.items) }
        ensures readers { IfOk result (λ made. vec_len made.2 ≡ readers) }
    {
        let (book, row) = ViewedBook::new(rt, alloc, readers)?;
        match SeatLock::new(alloc, seats, book) {
            Ok((lock, all)) => Ok((ViewedVm { lock }, all, row)),
            Err((error, book)) => {
                drop(book.into_closed(rt));
                Err(error)
            }
        }
    }

    /// As `SharedVm::execute`. It publishes nothing.
    pub fn execute<R: Wait>(
        &self,
        rt: &R,
        seat: &mut ViewedSeat,
        command: Command,
        budget: u64,
    ) -> Result<Receipt, ExecFault>
        requires seat { IsFree self.now.id seat.old }
        requires room { length seat.old.made < MOST_TURNS }
        ensures { Executed seat.old seat.new (tree_of command.expr) budget result }
    {
        let mut book = self.lock.take(rt, seat);
        match book.step(seat.number(), command, budget) {
            Ok(receipt) => {
                keep(&self.lock, seat, book);
                Ok(receipt)
            }
            Err(ExecFault::OutOfMemory) => {
                lose(&self.lock, seat, book);
                Err(ExecFault::OutOfMemory)
            }
            Err(ExecFault::Failed { after }) => {
                keep(&self.lock, seat, book);
                Err(ExecFault::Failed { after })
            }
        }
    }

    /// As `SharedVm::interned`. By such a name readers find attributes.
    pub fn interned<R: Wait>(
        &self,
        rt: &R,
        seat: &mut ViewedSeat,
        text: &str,
    ) -> Option<PyStrInterned>
        requires seat { IsFree self.now.id seat.old }
        requires room { length seat.old.made < MOST_TURNS }
        ensures { Named seat.old seat.new text.now result }
    {
        let book = self.lock.take(rt, seat);
        let name = book.interned(text);
        keep(&self.lock, seat, book);
        name
    }

    /// Waits for the seat's turn and publishes the classes as they are then. It tells how many changes of them are new to
    /// the view, and of what was published: a reader that learns it shows no less. What was published are the classes that
    /// the plain machine has after the turns before, but for their names. The turn is empty. It may wait for readers. Where
    /// memory can't be had, the machine doesn't fail and no turn is lost. Only a seat of this machine may that is in no
    /// turn and has made fewer than `MOST_TURNS`.
    pub fn publish<R: Wait>(&self, rt: &R, seat: &mut ViewedSeat) -> Result<(u64, Told), ExecFault>
        requires seat { IsFree self.now.id seat.old }
        requires room { length seat.old.made < MOST_TURNS }
        ensures { Published seat.old seat.new result }
    {
        let mut book = self.lock.take(rt, seat);
        let sent = book.publish(rt);
        keep(&self.lock, seat, book);
        sent
    }

    /// As `SharedVm::meet`.
    pub fn meet(&self, seat: &mut ViewedSeat, other: &mut ViewedSeat) -> Result<(), OutOfMemory>
        requires seat { IsFree self.now.id seat.old }
        requires other { IsFree self.now.id other.old }
        ensures ok { IsOk result }
        ensures seen { IsPrefix seat.old.seen seat.new.seen }
        ensures told { IsPrefix other.old.seen seat.new.seen }
        ensures own { turns_by seat.new.number seat.new.seen ≡ seat.new.made }
        ensures free { seat.new.in_turn ≡ false }
        ensures same { IsSameSeat seat.old seat.new }
        ensures other { other.new ≡ other.old }
    {
        self.lock.meet(seat, other)
    }

    /// As `SharedVm::close`, and ends the view too, whose readers are gone then. It may wait for readers.
    pub fn close<R: Wait>(self, rt: &R, seats: Vec<ViewedSeat>) -> Closed
        requires all { vec_len seats ≡ self.seats }
        requires free { All (IsFree self.id) seats.items }
        ensures legal { Legal (plain_journal result.journal.items) }
        ensures world { result.machine.failed ≡ false →
            IsReplay result.machine (plain_journal result.journal.items) }
        ensures whole { (log : List (Turn Entry)) × (result.journal.items ≡ entries_in log) ×
            (result.machine.failed ≡ has_lost log) × IsWhole self.seats seats.items log }
    {
        let ViewedVm { lock } = self;
        let book = lock.close(seats);
        book.into_closed(rt)
    }
}

// Gives the book back with a turn that is not lost, whose entry is the one that wasn't seen yet, if there is one.
fn keep(lock: &SeatLock<ViewedBook>, seat: &mut ViewedSeat, book: ViewedBook)
    requires lock { seat.old.lock ≡ lock.now.id }
    requires in_turn { seat.old.in_turn ≡ true }
    requires book { StandsFor book (seat.old.seen ++
        newest seat.old.number seat.old.seen book.book.journal false ∷ []) }
    ensures made { seat.new ≡ with_turn seat.old (newest seat.old.number seat.old.seen book.book.journal false) }
    ensures own { turns_by seat.new.number seat.new.seen ≡ seat.new.made }
{
    lock.give(seat, book);
}

// Gives the book back with a turn that is lost.
fn lose(lock: &SeatLock<ViewedBook>, seat: &mut ViewedSeat, book: ViewedBook)
    requires lock { seat.old.lock ≡ lock.now.id }
    requires in_turn { seat.old.in_turn ≡ true }
    requires book { StandsFor book (seat.old.seen ++
        newest seat.old.number seat.old.seen book.book.journal true ∷ []) }
    ensures made { seat.new ≡ with_turn seat.old (newest seat.old.number seat.old.seen book.book.journal true) }
    ensures own { turns_by seat.new.number seat.new.seen ≡ seat.new.made }
{
    lock.give(seat, book);
}
