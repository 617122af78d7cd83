//! What each step on the table tells, and how views are cut and joined. These types are for the proofs alone.
use crate::board::View;
use crate::history::{Turn, Turns};
use atomic_table::{Join, Play, Split};
use std::marker::{Brand, PhantomData};

/// Which turn is left. The call that leaves it picks it.
pub trait Leaving<E> {
    ghost use Rattle.seat_lock.specs.declared.history.Turn.{Turn};

    ghost turn: { Turn E };
}

impl<E> Leaving<E> for Brand {
    ghost use Rattle.std.specs.Prelude.{None, false};

    ghost turn = { record { by = 0; entry = None; lost = false } };
}

/// A seat draws a ticket.
pub struct Draw;

impl<T: Turns> Play<Option<T>, View<T::Entry>> for Draw {
    ghost use Rattle.seat_lock.specs.Plays.{drawn};

    ghost then = { drawn };
}

/// A seat that has a ticket looks whether it is served. Where it is, the seat has seen all turns and has the value.
pub struct Look;

impl<T: Turns> Play<Option<T>, View<T::Entry>> for Look {
    ghost use Rattle.seat_lock.specs.Plays.{looked};

    ghost then = { looked T.stands };
}

/// A seat leaves its turn.
pub struct Leave<M> {
    turn: PhantomData<M>,
}

impl<T: Turns, M: Leaving<T::Entry>> Play<Option<T>, View<T::Entry>> for Leave<M> {
    ghost use Rattle.seat_lock.specs.Plays.{left_turn};

    ghost then = { left_turn M.turn };
}

/// A seat looks, and has seen all turns.
pub struct Learn;

impl<T: Turns> Play<Option<T>, View<T::Entry>> for Learn {
    ghost use Rattle.seat_lock.specs.Plays.{learnt};

    ghost then = { learnt };
}

/// A new seat gets the first number of another.
pub struct NextSeat;

impl<E> Split<View<E>> for NextSeat {
    ghost use Rattle.seat_lock.specs.Plays.{with_first, without_first};

    ghost left = { without_first };

    ghost right = { with_first };
}

/// A new seat has seen what another has, and makes no turn.
pub struct Copied;

impl<E> Split<View<E>> for Copied {
    ghost use Rattle.seat_lock.specs.Plays.{copied};

    ghost left = { λ v. v };

    ghost right = { copied };
}

/// One seat takes in another, with its numbers and with what it has seen.
pub struct Both;

impl<E> Join<View<E>> for Both {
    ghost use Rattle.seat_lock.specs.Plays.{joined, spent};

    ghost both = { joined };

    ghost spent = { spent };
}
