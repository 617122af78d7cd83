//! What is kept of a command, and what its caller is told.

use py_node::{Command, Reply};

/// A command that a seat executed.
#[derive(Drop)]
pub struct Entry {
    /// The number of the seat.
    pub seat: u32,
    /// How many entries of this seat stand before it.
    pub number: u64,
    pub command: Command,
    /// The units that the command had.
    pub budget: u64,
    pub reply: Reply,
}

/// What an executed command's caller is told.
#[derive(Drop)]
pub struct Receipt {
    /// The place of its entry in the journal, from 0.
    pub place: usize,
    /// The number of the seat.
    pub seat: u32,
    pub command: Command,
    pub reply: Reply,
}

/// Why a command has no receipt.
#[derive(Clone, Copy, PartialEq, Eq, Debug)]
pub enum ExecFault {
    /// Memory could not be had. The machine has failed.
    OutOfMemory,
    /// The machine had failed before; the journal has so many entries.
    Failed { after: usize },
}
