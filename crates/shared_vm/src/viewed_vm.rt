//! A shared machine whose classes readers look up without ever waiting.
//!
//! Seats execute commands on it as on a `SharedVm`. Beside that, a seat publishes the classes as they are then: a reader of
//! a view answers from what was published, and waits for no seat (`class_view`). What was published are the classes of the
//! plain machine that replays the journal of the seat's turn.
//!
//! It is a type of its own, so that `publish` has no condition on how the machine was made, and that a shared machine
//! without readers keeps no view.
#![tactic(auto)]

mod book;
mod shared;

pub use book::ViewedBook;
pub use shared::{ViewedSeat, ViewedVm};
