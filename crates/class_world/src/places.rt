//! The places of a new object, in which nothing stands yet.

ghost use Rattle.class_world.specs.Below.{true, IfOk, is_class};
ghost use Rattle.std.specs.Prelude.{◌≡◌};
ghost use Rattle.class_world.specs.Added.{AreEmpty};

use class_table::ClassTable;
use py_node::{OutOfMemory, PyMembers, PyTypeRef};
use std::alloc::Global;

// As many places as a class gives its objects. No places take no memory.
pub(crate) fn empty_places(
    classes: &ClassTable,
    alloc: Global,
    class: PyTypeRef,
) -> Result<PyMembers, OutOfMemory>
    requires { is_class classes.now class.0 ≡ true }
    ensures { IfOk result (λ m. AreEmpty classes.now class.0 m) }
{
    PyMembers::with_places(alloc, classes.member_count(class))
}
