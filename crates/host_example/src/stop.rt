//! Why the example stops.

ghost use Rattle.std.specs.Prelude.{IfOk};
ghost use Rattle.class_world.specs.Held.{Held};
ghost use Rattle.class_world.specs.Sound.{AllHold, Holds, IsNode, of_node_ref};
ghost use Rattle.vm_eval.specs.Asks.{of_done};

use class_table::ClassFault;
use py_node::{OutOfMemory, PyObjectRef, PyResult, Raised};
use script_text::ScriptFault;
use std::alloc::AllocError;
use std::io;
use vm_eval::RunFault;

/// Why there is no answer.
#[derive(Clone, Copy, Drop)]
pub enum Stop {
    /// A fault of the language, with its kind and its cause.
    Raised(Raised),
    /// The units were used up.
    Budget,
    /// Memory could not be had.
    OutOfMemory,
    /// The script, or what it made, is not as it should be.
    Other,
}

impl From<OutOfMemory> for Stop {
    fn from(_: OutOfMemory) -> Stop {
        Stop::OutOfMemory
    }
}

impl From<AllocError> for Stop {
    fn from(_: AllocError) -> Stop {
        Stop::OutOfMemory
    }
}

impl From<RunFault> for Stop {
    fn from(_: RunFault) -> Stop {
        Stop::OutOfMemory
    }
}

impl From<ClassFault> for Stop {
    fn from(_: ClassFault) -> Stop {
        Stop::Other
    }
}

impl From<ScriptFault> for Stop {
    fn from(_: ScriptFault) -> Stop {
        Stop::Other
    }
}

/// The value of a call, or why it has none.
pub fn done(told: PyResult<PyObjectRef>) -> Result<PyObjectRef, Stop>
    ensures { IfOk result (λ r. (w : Held) → AllHold w (of_done of_node_ref told) → Holds w (IsNode r)) }
{
    match told {
        PyResult::Done(value) => Ok(value),
        PyResult::Raised(raised) => Err(Stop::Raised(raised)),
        PyResult::Budget => Err(Stop::Budget),
    }
}
