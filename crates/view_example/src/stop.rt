//! Why the example ends early.

use class_table::ClassFault;
use class_view::{Gone, ReaderFault};
use py_node::OutOfMemory;

/// Why there is nothing to show.
#[derive(Clone, Copy)]
pub enum Stop {
    /// Memory could not be had.
    OutOfMemory,
    /// A change isn't fit, or is refused.
    Refused,
    /// A reader could look no more.
    Gone,
}

impl From<OutOfMemory> for Stop {
    fn from(_: OutOfMemory) -> Stop {
        Stop::OutOfMemory
    }
}

impl From<ClassFault> for Stop {
    fn from(fault: ClassFault) -> Stop {
        match fault {
            ClassFault::OutOfMemory => Stop::OutOfMemory,
            _ => Stop::Refused,
        }
    }
}

impl From<Gone> for Stop {
    fn from(_: Gone) -> Stop {
        Stop::Gone
    }
}

impl From<ReaderFault> for Stop {
    fn from(fault: ReaderFault) -> Stop {
        match fault {
            ReaderFault::Gone => Stop::Gone,
            ReaderFault::OutOfMemory => Stop::OutOfMemory,
        }
    }
}

impl Stop {
    /// What is told of it.
    pub fn word(self) -> &'static str {
        match self {
            Stop::OutOfMemory => "no memory",
            Stop::Refused => "a change is refused",
            Stop::Gone => "a reader is gone",
        }
    }
}
