//! Why the example stops.

use py_node::OutOfMemory;
use script_text::ScriptFault;
use shared_vm::ExecFault;
use std::alloc::AllocFailed;
use vm_eval::RunFault;

/// Why there is nothing to tell.
#[derive(Clone, Copy, Drop)]
pub enum Stop {
    /// Memory could not be had, in this turn or in one before it.
    OutOfMemory,
    /// A seat has no turn left.
    NoTurn,
    /// A script, or what it answers, is not as it should be.
    Other,
}

impl From<OutOfMemory> for Stop {
    fn from(_: OutOfMemory) -> Stop {
        Stop::OutOfMemory
    }
}

impl<T: Drop> From<AllocFailed<T>> for Stop {
    fn from(_: AllocFailed<T>) -> Stop {
        Stop::OutOfMemory
    }
}

impl From<RunFault> for Stop {
    fn from(_: RunFault) -> Stop {
        Stop::OutOfMemory
    }
}

impl From<ExecFault> for Stop {
    fn from(_: ExecFault) -> Stop {
        Stop::OutOfMemory
    }
}

impl From<ScriptFault> for Stop {
    fn from(_: ScriptFault) -> Stop {
        Stop::Other
    }
}

impl Stop {
    /// What is told of it.
    pub fn word(self) -> &'static str {
        match self {
            Stop::OutOfMemory => "no memory",
            Stop::NoTurn => "no turn left",
            Stop::Other => "no such script",
        }
    }
}
