//! What is asked before a command of a session.

/// It is asked before each command of a session, outside the lock: with the seat's number, and how many turns the seat
/// has made. It may wait, so that a test can hold a session back.
pub trait Gate {
    fn before(&self, seat: u32, number: u64);
}

/// A gate that is always open.
pub struct OpenGate;

impl Gate for OpenGate {
    fn before(&self, _seat: u32, _number: u64) {}
}
