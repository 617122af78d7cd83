//! Turns at the sheet.
ghost use Rattle.seat_example.specs.Below.{true, [], vec_len, All, with_turn};
ghost use Rattle.std.specs.Prelude.{◌≡◌, ◌∷◌, ◌++◌};
ghost use Rattle.seat_example.specs.Sheets.{Stands, newest};
ghost use Rattle.seat_example.specs.Signed.{MaySign, Signed};

use crate::sheet::Sheet;
use seat_lock::{LockSeat, SeatLock};
use std::sync::Wait;
use std::thread::{Threads, join};

// How often each thread signs.
const ROUNDS: u32 = 1_000;

/// Signs the sheet once. A seat that finds no room leaves an empty turn.
pub fn sign<R: Wait>(rt: &R, lock: &SeatLock<Sheet>, seat: &mut LockSeat<Sheet>)
    requires { MaySign lock.now.id 1 seat.old }
    ensures { Signed lock.now.id 1 seat.old seat.new }
{
    let mut sheet = lock.take(rt, seat);
    sheet.sign(seat.number());
    leave(lock, seat, sheet);
}

// Ends the turn. It left the last name of the sheet, where that is one more than before.
fn leave(lock: &SeatLock<Sheet>, seat: &mut LockSeat<Sheet>, sheet: Sheet)
    requires lock { seat.old.lock ≡ lock.now.id }
    requires in_turn { seat.old.in_turn ≡ true }
    requires sheet { Stands sheet (seat.old.seen ++ newest seat.old.number seat.old.seen sheet.names.items ∷ []) }
    ensures { seat.new ≡ with_turn seat.old (newest seat.old.number seat.old.seen sheet.names.items) }
{
    lock.give(seat, sheet);
}

/// Signs it `ROUNDS` times.
pub fn sign_often<R: Wait>(rt: &R, lock: &SeatLock<Sheet>, seat: &mut LockSeat<Sheet>)
    requires { MaySign lock.now.id ROUNDS seat.old }
    ensures { Signed lock.now.id ROUNDS seat.old seat.new }
{
    for _ in 0..ROUNDS {
        sign(rt, lock, seat);
    }
}

// Two seats, each in a thread of its own.
fn both_sign<R: Threads + Wait + Sync>(
    rt: &R,
    lock: &SeatLock<Sheet>,
    mut one: LockSeat<Sheet>,
    mut two: LockSeat<Sheet>,
) -> (LockSeat<Sheet>, LockSeat<Sheet>)
    requires { MaySign lock.now.id ROUNDS one × MaySign lock.now.id ROUNDS two }
    ensures { Signed lock.now.id ROUNDS one result.0 × Signed lock.now.id ROUNDS two result.1 }
{
    join(
        rt,
        move || -> LockSeat<Sheet>
            requires { MaySign lock.now.id ROUNDS one }
            ensures { Signed lock.entry.now.id ROUNDS one result }
        {
            sign_often(rt, lock, &mut one);
            one
        },
        move || -> LockSeat<Sheet>
            requires { MaySign lock.now.id ROUNDS two }
            ensures { Signed lock.entry.now.id ROUNDS two result }
        {
            sign_often(rt, lock, &mut two);
            two
        },
    )
}

/// The first seat signs once. The others meet it, so their turns come later, and sign in threads of their own.
pub fn all_sign<R: Threads + Wait + Sync>(
    rt: &R,
    lock: SeatLock<Sheet>,
    mut seats: Vec<LockSeat<Sheet>>,
) -> Option<Sheet>
    requires three { (lock.seats ≡ 3) × (vec_len seats ≡ 3) }
    requires seats { All (MaySign lock.id ROUNDS) seats.items }
{
    let Some(mut third) = seats.pop() else {
        return None;
    };
    let Some(mut second) = seats.pop() else {
        return None;
    };
    let Some(mut first) = seats.pop() else {
        return None;
    };
    sign(rt, &lock, &mut first);
    lock.meet(&mut second, &mut first).ok()?;
    lock.meet(&mut third, &mut first).ok()?;
    let (second, third) = both_sign(rt, &lock, second, third);
    seats.push(first).ok()?;
    seats.push(second).ok()?;
    seats.push(third).ok()?;
    Some(lock.close(seats))
}
