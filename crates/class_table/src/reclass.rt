//! Another class for the objects of a class.

ghost use Rattle.class_table.specs.Below.{true, is_class};
ghost use Rattle.std.specs.Prelude.{◌≡◌};
ghost use Rattle.class_table.specs.Coherent.{IsCoherent};
ghost use Rattle.class_table.specs.Rebase.{refused_class};
ghost use Rattle.class_table.specs.Refused.{cause_of};
ghost use Rattle.class_table.specs.Stored.{classes_of};

use crate::dict::agree;
use crate::heap::is_heap;
use crate::inherit::solid_class;
use crate::stored_classes::StoredClasses;
use crate::table::ClassTable;
use py_node::{Cause, PyTypeRef};

impl ClassTable {
    /// Why the objects of a class may not become those of another one, if they may not: scripts must have made both, and
    /// their solid classes must be the same, and both give their objects a dict or neither does.
    pub fn may_become(&self, class: PyTypeRef, other: PyTypeRef) -> Result<(), Cause>
        requires class { is_class self.now class.0 ≡ true }
        requires other { is_class self.now other.0 ≡ true }
        ensures { cause_of result ≡ refused_class self.now class.0 other.0 }
    {
        may_become(&self.classes, class, other)
    }
}

// Why the objects of a class may not become those of another one, if they may not.
pub(crate) fn may_become(
    classes: &StoredClasses,
    class: PyTypeRef,
    other: PyTypeRef,
) -> Result<(), Cause>
    requires coherent { IsCoherent classes.now }
    requires class { is_class (classes_of classes.now) class.0 ≡ true }
    requires other { is_class (classes_of classes.now) other.0 ≡ true }
    ensures { cause_of result ≡ refused_class (classes_of classes.now) class.0 other.0 }
{
    if !(is_heap(classes, class) && is_heap(classes, other)) {
        return Err(Cause::ImmutableType);
    }
    let solid = solid_class(classes, class);
    if solid.0 != solid_class(classes, other).0 || !agree(classes, class, other) {
        return Err(Cause::LayoutDiffers);
    }
    Ok(())
}
