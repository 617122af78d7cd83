//! How the seats of a lock come together at its end.
ghost use Rattle.seat_lock.specs.Below.{vec_len, All};
ghost use Rattle.std.specs.Prelude.{◌<◌};
ghost use Rattle.seat_lock.specs.Ending.{Gathered};
ghost use Rattle.seat_lock.specs.Known.{IsFree};
ghost use Rattle.seat_lock.specs.Places.{IsSized};

use crate::board::{Board, Place};
use crate::history::Turns;
use crate::seat::LockSeat;
use crate::steps::learn_from;

// Joins the seats into one, which then has seen all that they have seen.
pub(crate) fn gather<T: Turns>(board: &Board<T>, mut seats: Vec<LockSeat<T>>) -> Place<T>
    requires table { IsSized board.now.table_id }
    requires some_seat { 0 < vec_len seats }
    requires free { All (IsFree board.now.table_id) seats.items }
    ensures { Gathered board.now.table_id seats.items result }
{
    let first = seats.pop().unwrap();
    let LockSeat { place: mut all, .. } = first;
    while let Some(next) = seats.pop() {
        let LockSeat { place, .. } = next;
        learn_from(board, &mut all, place);
    }
    all
}
