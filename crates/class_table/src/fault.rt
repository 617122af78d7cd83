//! Why a class could not be made or changed.

ghost use Rattle.std.specs.Prelude.{◌≡◌};
ghost use Rattle.class_table.specs.Inherit.{fault_of};

use crate::mro_merge::MroFault;
use py_node::{Cause, OutOfMemory, PyTypeRef};

/// Why a class could not be made or changed.
#[derive(Clone, Copy, PartialEq, Eq, Debug)]
pub enum ClassFault {
    /// The rules forbid it.
    Refused(Cause),
    /// A class that has no order under other bases, while all its bases have one.
    RefusedAt(Cause, PyTypeRef),
    /// Memory could not be had.
    OutOfMemory,
}

impl From<OutOfMemory> for ClassFault {
    fn from(_: OutOfMemory) -> ClassFault {
        ClassFault::OutOfMemory
    }
}

// Why bases are refused that have no order.
pub(crate) fn merge_fault(fault: MroFault) -> ClassFault
    ensures { result ≡ fault_of fault }
{
    match fault {
        MroFault::DuplicateBase(_) => ClassFault::Refused(Cause::DuplicateBase),
        MroFault::LocalPrecedence => ClassFault::Refused(Cause::LocalPrecedence),
        MroFault::MroConflict => ClassFault::Refused(Cause::MroConflict),
        MroFault::OutOfMemory => ClassFault::OutOfMemory,
    }
}
