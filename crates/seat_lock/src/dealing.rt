//! How the seats of a new lock are made: each is cut off the first, which begins with every number.
ghost use Rattle.seat_lock.specs.Below.{ℕ, [], vec_len, vec_capacity, Some, slice_get};
ghost use Rattle.std.specs.Prelude.{◌≡◌, ◌<◌, ◌≤◌, ◌∷◌};
ghost use Rattle.seat_lock.specs.Known.{fresh_seat};
ghost use Rattle.seat_lock.specs.Places.{IsAt};
ghost use Rattle.seat_lock.specs.Rule.{founder};

use crate::board::{Board, Place};
use crate::history::Turns;
use crate::plays::NextSeat;
use crate::seat::LockSeat;

// Puts as many seats into the row, numbered from 0. The last number stays with the first seat.
pub(crate) fn deal<T: Turns>(
    board: &Board<T>,
    mut first: Place<T>,
    seats: u32,
    row: &mut Vec<LockSeat<T>>,
)
    requires table { IsAt board.now.table_id first }
    requires first { first.me ≡ (founder seats, []) }
    requires some_seat { 0 < seats }
    requires room { (vec_len row.old ≡ 0) × (seats ≤ vec_capacity row.old) }
    ensures len { vec_len row.new ≡ seats }
    ensures seats { (k : ℕ) → k < seats → slice_get row.new.items k ≡ Some (fresh_seat board.now.table_id k) }
{
    let last = seats - 1;
    for number in 0..last {
        let place = board.split_seat::<NextSeat>(&mut first);
        row.push_reserved(LockSeat {
            number,
            made: 0,
            place,
        });
    }
    row.push_reserved(LockSeat {
        number: last,
        made: 0,
        place: first,
    });
}

// The value of the one slot of a table for which there was no memory.
pub(crate) fn only_value<T>(mut slots: Vec<Option<T>>) -> T
    requires { (value : T) × (slots.items ≡ Some value ∷ []) }
    ensures { slots.items ≡ Some result ∷ [] }
{
    let slot = slots.pop();
    slots.destroy_empty();
    let Some(Some(value)) = slot else {
        unreachable!()
    };
    value
}
