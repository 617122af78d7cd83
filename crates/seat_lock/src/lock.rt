//! The lock.
ghost use Rattle.seat_lock.specs.Below.{ℕ, List, [], length, vec_len, true, false, Some, slice_get, IsOk, IfOk, IfErr, All};
ghost use Rattle.std.specs.Prelude.{◌≡◌, ◌<◌, ◌++◌, ◌∷◌};
ghost use mathlib.Core.List.{IsPrefix};
ghost use Rattle.seat_lock.specs.declared.history.Turn.{Turn};
ghost use Rattle.seat_lock.specs.History.{turns_by, IsWhole};
ghost use Rattle.seat_lock.specs.Known.{IsFree, IsSameSeat, fresh_seat, with_turn};

use crate::board::{HOME, TicketRule, View};
use crate::dealing::{deal, only_value};
use crate::ending::gather;
use crate::history::Turns;
use crate::plays::Copied;
use crate::seat::{LockSeat, MOST_TURNS};
use crate::steps::{learn_from, leave_turn, take_turn};
use atomic_table::{Refused, Table};
use py_node::OutOfMemory;
use std::alloc::Global;
use std::marker::{Brand, Model};
use std::sync::Wait;

/// A value that seats take in turns. Callers share it by reference. It ends with `close`, or is dropped with its value.
#[derive(Drop)]
pub struct SeatLock<T: Turns> {
    table: Table<Option<T>, View<T::Entry>, u64, TicketRule, Global>,
}

impl<T: Turns> Model for SeatLock<T> {
    ghost use Rattle.seat_lock.specs.Known.{Lock};

    ghost Value = { Lock };

    ghost use Rattle.seat_lock.specs.Seats.{lock_of, IsLock};

    ghost view = { lock_of };

    ghost invariant = { IsLock };
}

impl<T: Turns> SeatLock<T> {
    /// A lock with so many seats, at least one, which are numbered from 0 in the list's order. None has seen or made a
    /// turn. The value comes back where there is no memory, which is the one reason.
    pub fn new(
        alloc: Global,
        seats: u32,
        value: T,
    ) -> Result<(SeatLock<T>, Vec<LockSeat<T>>), (OutOfMemory, T)>
        requires some_seat { 0 < seats }
        requires value { T.stands value [] }
        ensures lock { IfOk result (λ made. made.0.seats ≡ seats) }
        ensures len { IfOk result (λ made. vec_len made.1 ≡ seats) }
        ensures seats { IfOk result (λ made.
            (k : ℕ) → k < seats → slice_get made.1.items k ≡ Some (fresh_seat made.0.id k)) }
        ensures free { IfOk result (λ made. All (IsFree made.0.id) made.1.items) }
        ensures back { IfErr result (λ refused. refused.1 ≡ value) }
    {
        let Ok(mut row) = Vec::with_capacity(alloc, seats as usize) else {
            return Err((OutOfMemory, value));
        };
        let Ok(mut slots) = Vec::with_capacity(alloc, 1) else {
            return Err((OutOfMemory, value));
        };
        slots.push_reserved(Some(value));
        let (table, first) = match Table::new(alloc, &[0, 0], slots, &u64::from(seats)) {
            Ok(made) => made,
            Err(Refused { slots }) => return Err((OutOfMemory, only_value(slots))),
        };
        deal(&table.shared, first, seats, &mut row);
        Ok((SeatLock { table }, row))
    }

    /// Waits for the seat's turn, and takes the value. The seat has then seen the history of all turns so far, which
    /// the value stands for. Only a seat of this lock may that is in no turn and has made fewer than `MOST_TURNS`.
    pub fn take<R: Wait>(&self, rt: &R, seat: &mut LockSeat<T>) -> T
        requires seat { IsFree self.now.id seat.old }
        requires room { length seat.old.made < MOST_TURNS }
        ensures value { T.stands result seat.new.seen }
        ensures in_turn { seat.new.in_turn ≡ true }
        ensures same { IsSameSeat seat.old seat.new }

        // It forgets nothing, and of its own turns it has seen just those that it made.
        ensures seen { IsPrefix seat.old.seen seat.new.seen }
        ensures own { turns_by seat.new.number seat.new.seen ≡ seat.new.made }
    {
        take_turn(rt, &self.table.shared, &mut seat.place)
    }

    /// Gives the value back, which stands for one turn more, and ends the turn. Only the seat that took it may. The
    /// turn has the seat's number; what it left, and whether it is lost, is the caller's to say (`turn`), who calls this
    /// in a function of its own without type parameters: from others the toolchain doesn't take the turn that is said.
    pub fn give(&self, seat: &mut LockSeat<T>, value: T)
        ghost turn: { Turn T.Entry }
        requires lock { seat.old.lock ≡ self.now.id }
        requires in_turn { seat.old.in_turn ≡ true }
        requires by { turn.by ≡ seat.old.number }
        requires value { T.stands value (seat.old.seen ++ turn ∷ []) }
        ensures made { seat.new ≡ with_turn seat.old turn }
        ensures own { turns_by seat.new.number seat.new.seen ≡ seat.new.made }
    {
        leave_turn::<T, Brand>(&self.table.shared, &mut seat.place, value);
        seat.made += 1;
    }

    /// Lets the first seat see all that the second has seen; neither may be in a turn. The turns that either made stay
    /// what they are. It takes no memory, so it is always Ok.
    pub fn meet(&self, seat: &mut LockSeat<T>, other: &mut LockSeat<T>) -> Result<(), OutOfMemory>
        requires seat { IsFree self.now.id seat.old }
        requires other { IsFree self.now.id other.old }
        ensures ok { IsOk result }
        ensures seen { IsPrefix seat.old.seen seat.new.seen }
        ensures told { IsPrefix other.old.seen seat.new.seen }
        ensures own { turns_by seat.new.number seat.new.seen ≡ seat.new.made }
        ensures free { seat.new.in_turn ≡ false }
        ensures same { IsSameSeat seat.old seat.new }
        ensures other { other.new ≡ other.old }
    {
        let board = &self.table.shared;
        let copy = board.split_seat::<Copied>(&mut other.place);
        learn_from(board, &mut seat.place, copy);
        Ok(())
    }

    /// Ends the lock, given all its seats in any order, none of them in a turn, and gives the value. It stands for the
    /// whole history: what each seat has seen begins it, each turn of it is one that a seat made, and each seat's are
    /// in the order in which it made them.
    pub fn close(self, seats: Vec<LockSeat<T>>) -> T
        requires all { vec_len seats ≡ self.seats }
        requires free { All (IsFree self.id) seats.items }
        ensures { (log : List (Turn T.Entry)) × T.stands result log × IsWhole self.seats seats.items log }
    {
        let SeatLock { table } = self;
        let all = gather(&table.shared, seats);
        let mut closed = table.close_with(all);
        let value = closed.take(HOME).unwrap();
        closed.free();
        value
    }
}
