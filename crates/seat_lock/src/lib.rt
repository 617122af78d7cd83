//! A lock whose turns form one history.
//!
//! Callers share a `SeatLock`, and each has a `LockSeat` of it. A seat takes a turn: it has the locked value until it
//! gives it back. A turn leaves an entry or none, and may be lost. All turns, in the order in which they were made, are
//! the one history of the lock. The value stands for this history, in whatever way its type says (`Turns`), and each
//! seat has seen a beginning of it, in which its own turns are those that it made, each once, in their order. The last
//! call, `close`, gives the value back with the whole history.
//!
//! Nothing is said of progress: not that a turn comes, nor which seat's comes first.
#![tactic(auto)]

mod board;
mod dealing;
mod ending;
mod history;
mod lock;
mod plays;
mod seat;
mod steps;

pub use history::{Turn, Turns};
pub use lock::SeatLock;
pub use seat::{LockSeat, MOST_TURNS};
