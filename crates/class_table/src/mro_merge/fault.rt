//! Why lists have no merge.

use py_node::{OutOfMemory, PyTypeRef};
use std::alloc::AllocFailed;
use thiserror::Error;

/// Why the bases of a class have no order.
#[derive(Clone, Copy, PartialEq, Eq, Debug, Error)]
pub enum MroFault {
    /// A base stands twice: of such bases the one whose second place comes first.
    #[error("duplicate base class")]
    DuplicateBase(PyTypeRef),
    /// A base stands past the head of a later base's list.
    #[error("the order of the bases differs from that of a base's linearisation")]
    LocalPrecedence,
    /// No list keeps the order of all.
    #[error("no consistent order")]
    MroConflict,
    /// Memory could not be had.
    #[error("out of memory")]
    OutOfMemory,
}

impl From<OutOfMemory> for MroFault {
    ghost use Rattle.std.specs.Prelude.{◌≡◌};
    ghost use Rattle.class_table.specs.MroMerge.Faults.{no_memory};

    ghost from_gives = { λ _ e. e ≡ no_memory };

    fn from(_refused: OutOfMemory) -> MroFault {
        MroFault::OutOfMemory
    }
}

impl<T: Drop> From<AllocFailed<T>> for MroFault {
    ghost use Rattle.std.specs.Prelude.{◌≡◌};
    ghost use Rattle.class_table.specs.MroMerge.Faults.{no_memory};

    ghost from_gives = { λ _ e. e ≡ no_memory };

    fn from(_refused: AllocFailed<T>) -> MroFault {
        MroFault::OutOfMemory
    }
}
