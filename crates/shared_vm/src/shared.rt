//! The shared machine.

ghost use Rattle.shared_vm.specs.Below.{ℕ, List, [], length, vec_len, true, false, Some, slice_get, IsOk, IfOk, All, tree_of, Turn, turns_by, IsWhole, IsFree, IsSameSeat, fresh_seat, with_turn};
ghost use Rattle.std.specs.Prelude.{◌≡◌, ◌<◌, ◌++◌, ◌∷◌};
ghost use mathlib.Core.List.{IsPrefix};
ghost use Rattle.shared_vm.specs.declared.entry.Entry.{Entry};
ghost use Rattle.shared_vm.specs.Journal.{Legal, plain_journal};
ghost use Rattle.shared_vm.specs.Book.{IsReplay};
ghost use Rattle.shared_vm.specs.Turns.{entries_in, has_lost, newest, Stands, Executed, Named};

use crate::book::Book;
use crate::entry::{Entry, ExecFault, Receipt};
use py_node::{Command, OutOfMemory, PyStrInterned};
use seat_lock::{LockSeat, MOST_TURNS, SeatLock};
use std::alloc::Global;
use std::marker::Model;
use std::sync::Wait;
use vm_eval::VirtualMachine;

/// A caller's seat at the shared machine. Its turns are the commands that it executed.
pub type Seat = LockSeat<Book>;

/// A machine that callers share by reference, each with a seat of its own.
#[derive(Drop)]
pub struct SharedVm {
    lock: SeatLock<Book>,
}

impl Model for SharedVm {
    ghost use Rattle.seat_lock.specs.Known.{Lock};

    ghost Value = { Lock };

    ghost view = { λ a. a.lock };
}

/// What is left of a shared machine: all that was executed, in the one order in which it was, and the machine.
#[derive(Drop)]
pub struct Closed {
    pub journal: Vec<Entry>,
    pub machine: VirtualMachine,
}

impl SharedVm {
    /// A new machine with so many seats, at least one, which are numbered from 0 in the list's order. None has seen or
    /// made a turn.
    pub fn new(alloc: Global, seats: u32) -> Result<(SharedVm, Vec<Seat>), OutOfMemory>
        requires { 0 < seats }
        ensures vm { IfOk result (λ made. made.0.seats ≡ seats) }
        ensures len { IfOk result (λ made. vec_len made.1 ≡ seats) }
        ensures seats { IfOk result (λ made.
            (k : ℕ) → k < seats → slice_get made.1.items k ≡ Some (fresh_seat made.0.id k)) }
        ensures free { IfOk result (λ made. All (IsFree made.0.id) made.1.items) }
    {
        let book = Book::new(alloc)?;
        match SeatLock::new(alloc, seats, book) {
            Ok((lock, row)) => Ok((SharedVm { lock }, row)),
            Err((error, _book)) => Err(error),
        }
    }

    /// Waits for the seat's turn and executes a command with so many units. Ok's receipt tells of the entry that this
    /// turn left. A turn that found no memory is lost, and every later one fails and leaves nothing. Only a seat of
    /// this machine may that is in no turn and has made fewer than `MOST_TURNS`.
    pub fn execute<R: Wait>(
        &self,
        rt: &R,
        seat: &mut Seat,
        command: Command,
        budget: u64,
    ) -> Result<Receipt, ExecFault>
        requires seat { IsFree self.now.id seat.old }
        requires room { length seat.old.made < MOST_TURNS }
        ensures { Executed seat.old seat.new (tree_of command.expr) budget result }
    {
        let mut book = self.lock.take(rt, seat);
        match book.step(seat.number(), command, budget) {
            Ok(receipt) => {
                keep(&self.lock, seat, book);
                Ok(receipt)
            }
            Err(ExecFault::OutOfMemory) => {
                lose(&self.lock, seat, book);
                Err(ExecFault::OutOfMemory)
            }
            Err(ExecFault::Failed { after }) => {
                keep(&self.lock, seat, book);
                Err(ExecFault::Failed { after })
            }
        }
    }

    /// Waits for the seat's turn and tells the name of a text, if one of the machine's names is, also where the machine has
    /// failed. The turn is empty, and it takes no memory. Only a seat of this machine may that is in no turn and has made
    /// fewer than `MOST_TURNS`.
    pub fn interned<R: Wait>(&self, rt: &R, seat: &mut Seat, text: &str) -> Option<PyStrInterned>
        requires seat { IsFree self.now.id seat.old }
        requires room { length seat.old.made < MOST_TURNS }
        ensures { Named seat.old seat.new text.now result }
    {
        let book = self.lock.take(rt, seat);
        let name = book.interned(text);
        keep(&self.lock, seat, book);
        name
    }

    /// Lets the first seat see all that the second has seen; neither may be in a turn. The turns that either made stay
    /// what they are. It takes no memory, so it is always Ok.
    pub fn meet(&self, seat: &mut Seat, other: &mut Seat) -> Result<(), OutOfMemory>
        requires seat { IsFree self.now.id seat.old }
        requires other { IsFree self.now.id other.old }
        ensures ok { IsOk result }
        ensures seen { IsPrefix seat.old.seen seat.new.seen }
        ensures told { IsPrefix other.old.seen seat.new.seen }
        ensures own { turns_by seat.new.number seat.new.seen ≡ seat.new.made }
        ensures free { seat.new.in_turn ≡ false }
        ensures same { IsSameSeat seat.old seat.new }
        ensures other { other.new ≡ other.old }
    {
        self.lock.meet(seat, other)
    }

    /// Ends the shared machine, given all its seats in any order, none of them in a turn. The journal has the entries
    /// of the turns that they made and no other, each seat's in its order, and the machine has failed exactly where a
    /// turn was lost.
    pub fn close(self, seats: Vec<Seat>) -> Closed
        requires all { vec_len seats ≡ self.seats }
        requires free { All (IsFree self.id) seats.items }
        ensures legal { Legal (plain_journal result.journal.items) }
        ensures world { result.machine.failed ≡ false →
            IsReplay result.machine (plain_journal result.journal.items) }
        ensures whole { (log : List (Turn Entry)) × (result.journal.items ≡ entries_in log) ×
            (result.machine.failed ≡ has_lost log) × IsWhole self.seats seats.items log }
    {
        let SharedVm { lock } = self;
        let book = lock.close(seats);
        let Book { machine, journal } = book;
        Closed { journal, machine }
    }
}

// Gives the book back with a turn that is not lost, whose entry is the one that wasn't seen yet, if there is one.
fn keep(lock: &SeatLock<Book>, seat: &mut Seat, book: Book)
    requires lock { seat.old.lock ≡ lock.now.id }
    requires in_turn { seat.old.in_turn ≡ true }
    requires book { Stands book (seat.old.seen ++ newest seat.old.number seat.old.seen book.journal false ∷ []) }
    ensures made { seat.new ≡ with_turn seat.old (newest seat.old.number seat.old.seen book.journal false) }
    ensures own { turns_by seat.new.number seat.new.seen ≡ seat.new.made }
{
    lock.give(seat, book);
}

// Gives the book back with a turn that is lost.
fn lose(lock: &SeatLock<Book>, seat: &mut Seat, book: Book)
    requires lock { seat.old.lock ≡ lock.now.id }
    requires in_turn { seat.old.in_turn ≡ true }
    requires book { Stands book (seat.old.seen ++ newest seat.old.number seat.old.seen book.journal true ∷ []) }
    ensures made { seat.new ≡ with_turn seat.old (newest seat.old.number seat.old.seen book.journal true) }
    ensures own { turns_by seat.new.number seat.new.seen ≡ seat.new.made }
{
    lock.give(seat, book);
}
