//! A caller's seat.
ghost use Rattle.seat_lock.specs.Below.{length};
ghost use Rattle.std.specs.Prelude.{◌≡◌, ◌≤◌};

use crate::board::Place;
use crate::history::Turns;
use std::marker::Model;

/// How many turns a seat may make.
pub const MOST_TURNS: u64 = 4_294_967_295;

/// A seat of a lock: what one caller takes turns with. It has a number, counts its turns, and knows, in contracts,
/// what it has seen of the history. There are as many of a lock as it was made with, and no other comes to be.
///
/// A seat that is dropped makes no further turn, and then its lock can't be closed. One that is dropped in a turn keeps
/// the value for good, and every other seat waits.
#[derive(Drop)]
pub struct LockSeat<T: Turns> {
    pub(crate) number: u32,
    pub(crate) made: u64,
    pub(crate) place: Place<T>,
}

impl<T: Turns> Model for LockSeat<T> {
    ghost use Rattle.seat_lock.specs.Known.{Known};

    ghost Value = { Known T.Entry };

    ghost use Rattle.seat_lock.specs.Seats.{known, IsOwn};

    ghost view = { known };

    ghost invariant = { IsOwn };
}

impl<T: Turns> LockSeat<T> {
    /// Its number: the seats of a lock are numbered from 0.
    pub fn number(&self) -> u32
        ensures { result ≡ self.now.number }
    {
        self.number
    }

    /// How many turns it made, at most `MOST_TURNS`. A turn counts once the value is given back.
    pub fn made(&self) -> u64
        ensures made { result ≡ length self.now.made }
        ensures most { result ≤ MOST_TURNS }
    {
        self.made
    }
}
