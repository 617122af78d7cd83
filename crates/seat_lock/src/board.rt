//! The table under the lock: two words, one slot, and what each seat at it knows.
//!
//! A seat draws a ticket, waits until it is served, takes the value out of the slot, puts it back, and lets the next
//! ticket be served. These are all steps that there are:
//!
//! | step | on | which view changes |
//! |---|---|---|
//! | draw a ticket (`Draw`) | the word of tickets | its own: it waits with that ticket |
//! | look which ticket is served (`Look`, `Learn`) | the word that is served | its own: it has seen all turns so far |
//! | exchange out | the slot | none |
//! | exchange in | the slot | none |
//! | leave the turn (`Leave`) | the word that is served | its own: no ticket, a turn more is seen and made |
//! | cut a seat in two (`NextSeat`, `Copied`) | | the new seat's, and that of the seat which gives it a number |
//! | join two seats (`Both`) | | both: the one has all, the other is spent |
//! | close | | none |
//!
//! The rule (`specs/Rule.antt`) holds between any two steps: the ticket that is served, and the number of seats that
//! have a ticket, add up to the next ticket; the ticket that is served is the number of turns; a value in the slot
//! stands for the turns so far; what each seat has seen begins the one history; the turns under a seat's number are
//! those that it made.
use crate::history::{Turn, Turns};
use atomic_table::{Seat, Shared, TableRule};
use std::collections::LinkedList;

/// The word that has the next ticket.
pub(crate) const TICKETS: usize = 0;

/// The word that has the ticket that is served.
pub(crate) const SERVED: usize = 1;

/// The slot of the value; it is empty while a seat has the turn.
pub(crate) const HOME: usize = 0;

/// What seats share.
pub(crate) type Board<T> = Shared<Option<T>, View<<T as Turns>::Entry>, u64, TicketRule>;

/// A seat at the table.
pub(crate) type Place<T> = Seat<Option<T>, View<<T as Turns>::Entry>>;

/// A number, and the turns that were made under it. No value of it is made.
pub struct Account<E> {
    pub number: u32,
    pub made: LinkedList<Turn<E>>,
}

/// How far a seat is with its turn.
pub enum Stage {
    Idle,
    /// It has this ticket.
    Waits(u64),
    /// It has this ticket, which is served, and the slot.
    Holds(u64),
}

/// What a seat at the table knows. No value of it is made.
pub struct View<E> {
    pub stage: Stage,
    /// The beginning of the history that it has seen.
    pub seen: LinkedList<Turn<E>>,
    /// A beginning that another seat had seen, which it was told by a join.
    pub told: LinkedList<Turn<E>>,
    /// One account for a seat of a caller, none for a copy. The first seat begins with all of them.
    pub accounts: LinkedList<Account<E>>,
}

/// The rule of the table. Its key is the number of seats.
pub struct TicketRule;

impl<T: Turns> TableRule<Option<T>, View<T::Entry>, u64> for TicketRule {
    ghost use Rattle.seat_lock.specs.Rule.{HasOneHistory, founder};

    ghost holds = { HasOneHistory T.stands };

    ghost first = { founder };
}
