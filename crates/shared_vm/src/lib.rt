//! One machine that several callers share.
//!
//! Each caller has a seat. A seat executes a command under the machine's one lock, and its entry goes into the journal:
//! the seat, the command, its units and its reply. The journal is legal: each reply is the plain machine's in the world
//! that the entries before it leave. So whatever the order was in which the callers came, what they were answered is
//! what one plain machine answers to one caller who gives the commands in the journal's order.
//!
//! Nothing is said of progress: not that a seat's turn comes, nor which seat's comes first.
#![tactic(auto)]

mod book;
mod entry;
mod gate;
mod number;
mod session;
mod shared;
pub mod shared_run;
mod single;
pub mod viewed_vm;

pub use book::Book;
pub use entry::{Entry, ExecFault, Receipt};
pub use gate::{Gate, OpenGate};
pub use session::perform;
pub use shared::{Closed, Seat, SharedVm};
