//! Why something ends without a value.

ghost use Rattle.std.specs.Prelude.{◌≡◌};
ghost use Rattle.py_node.specs.Faults.{raised};
ghost use Rattle.py_node.specs.Stops.{sorted};

use crate::memory::OutOfMemory;
use crate::raised::{Cause, Raised};
use std::alloc::{AllocError, AllocFailed};

/// Why something ends without a value: a fault that is raised, or that memory could not be had.
#[derive(Clone, Copy, PartialEq, Eq, Debug)]
pub enum Stop {
    /// A fault that is raised.
    Raised(Raised),
    /// Memory could not be had.
    OutOfMemory,
}

impl Stop {
    /// A fault of a cause.
    pub fn raise(cause: Cause) -> Stop
        ensures { result ≡ Stop.Raised (raised cause) }
    {
        Stop::Raised(Raised::new(cause))
    }
}

impl From<Raised> for Stop {
    ghost use Rattle.std.specs.Prelude.{◌≡◌};
    ghost use Rattle.py_node.specs.declared.stop.Stop.TheVariants as stop;

    ghost from_gives = { λ x e. e ≡ stop.Raised x };

    fn from(raised: Raised) -> Stop {
        Stop::Raised(raised)
    }
}

impl From<OutOfMemory> for Stop {
    ghost use Rattle.std.specs.Prelude.{◌≡◌};
    ghost use Rattle.py_node.specs.declared.stop.Stop.TheVariants as stop;

    ghost from_gives = { λ _ e. e ≡ stop.OutOfMemory };

    fn from(_: OutOfMemory) -> Stop {
        Stop::OutOfMemory
    }
}

impl From<AllocError> for Stop {
    ghost use Rattle.std.specs.Prelude.{◌≡◌};
    ghost use Rattle.py_node.specs.declared.stop.Stop.TheVariants as stop;

    ghost from_gives = { λ _ e. e ≡ stop.OutOfMemory };

    fn from(_: AllocError) -> Stop {
        Stop::OutOfMemory
    }
}

impl<T: Drop> From<AllocFailed<T>> for Stop {
    ghost use Rattle.std.specs.Prelude.{◌≡◌};
    ghost use Rattle.py_node.specs.declared.stop.Stop.TheVariants as stop;

    ghost from_gives = { λ _ e. e ≡ stop.OutOfMemory };

    fn from(_: AllocFailed<T>) -> Stop {
        Stop::OutOfMemory
    }
}

/// What ended, with a value or a fault, apart from want of memory.
pub fn caught<T>(end: Result<T, Stop>) -> Result<Result<T, Raised>, OutOfMemory>
    ensures { result ≡ sorted end }
{
    match end {
        Ok(value) => Ok(Ok(value)),
        Err(Stop::Raised(raised)) => Ok(Err(raised)),
        Err(Stop::OutOfMemory) => Err(OutOfMemory),
    }
}
