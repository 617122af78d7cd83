//! The steps of one turn, and how a seat takes in another.
ghost use Rattle.seat_lock.specs.Below.{ℕ, [], None};
ghost use Rattle.std.specs.Prelude.{◌≡◌, ◌∷◌, ◌++◌};
ghost use Rattle.seat_lock.specs.declared.board.Stage.TheVariants.{Holds};
ghost use Rattle.seat_lock.specs.Places.{IsAt, IsIdle, MayDraw, Taken, IsSingle, Left, Learnt};

use crate::board::{Board, HOME, Place, SERVED, TICKETS};
use crate::history::Turns;
use crate::plays::{Both, Draw, Learn, Leave, Leaving, Look};
use std::sync::Wait;
use std::thread;

// Draws a ticket, waits until it is served, and takes the value.
pub(crate) fn take_turn<T: Turns, R: Wait>(rt: &R, board: &Board<T>, place: &mut Place<T>) -> T
    requires table { IsAt board.now.table_id place.old }
    requires idle { IsIdle place.old × MayDraw place.old }
    ensures { Taken T.stands place.old place.new result }
{
    let ticket = board.fetch_add::<Draw>(place, TICKETS, 1);
    for _ in rt.forever() {
        if board.load::<Look>(place, SERVED) == ticket {
            return board.exchange(place, HOME, None).unwrap();
        }
        thread::yield_now();
    }
    unreachable!()
}

// Puts the value back, and lets the next ticket be served.
pub(crate) fn leave_turn<T: Turns, M: Leaving<T::Entry>>(
    board: &Board<T>,
    place: &mut Place<T>,
    value: T,
)
    requires table { IsAt board.now.table_id place.old }
    requires turn { ((t : ℕ) × (place.old.me.0.stage ≡ Holds t)) × (place.old.me.1 ≡ (0, None) ∷ []) }
    requires value { IsSingle M.turn.by place.old × T.stands value (place.old.me.0.seen ++ M.turn ∷ []) }
    ensures { Left M.turn place.old place.new }
{
    let was = board.exchange(place, HOME, Some(value));
    let None = was else { unreachable!() };
    board.fetch_add::<Leave<M>>(place, SERVED, 1);
}

// Takes in an idle seat, and sees all that it has seen.
pub(crate) fn learn_from<T: Turns>(board: &Board<T>, place: &mut Place<T>, other: Place<T>)
    requires table { IsAt board.now.table_id place.old × IsAt board.now.table_id other }
    requires idle { IsIdle other }
    ensures { Learnt place.old other place.new }
{
    board.join_seat::<Both>(place, other);
    board.load::<Learn>(place, SERVED);
}
