//! An attribute of a class that is set.

ghost use Rattle.class_table.specs.Below.{true, OnOk, OnErr, is_same_name, is_class, with_class_attr};
ghost use Rattle.std.specs.Prelude.{◌≡◌};
ghost use Rattle.class_table.specs.Stored.{StoredClass, classes_of};
ghost use Rattle.class_table.specs.Coherent.{IsCoherent};

use crate::place::place;
use crate::refresh::refresh;
use crate::stored_classes::StoredClasses;
use py_node::{OutOfMemory, PyObjectRef, PyStrInterned, PyTypeRef};

// Sets an attribute, and finds the slots anew that change with it.
pub(crate) fn put(
    classes: &mut StoredClasses,
    class: PyTypeRef,
    name: PyStrInterned,
    value: PyObjectRef,
) -> Result<(), OutOfMemory>
    requires coherent { IsCoherent classes.old }
    requires there { is_class (classes_of classes.old) class.0 ≡ true }
    ensures coherent { OnOk result (IsCoherent classes.new) }
    ensures ok { OnOk result (classes_of classes.new ≡
        with_class_attr is_same_name (classes_of classes.old) class.0 name value) }
    ensures err { OnErr result (classes.new ≡ classes.old) }
{
    let at = place(classes, class);
    classes.set_attr(at, name, value)?;
    refresh(classes, class, name);
    Ok(())
}

// The same, of the classes of a table.
pub(crate) fn put_in(
    classes: &mut StoredClasses,
    class: PyTypeRef,
    name: PyStrInterned,
    value: PyObjectRef,
) -> Result<(), OutOfMemory>
    requires coherent { IsCoherent classes.old }
    requires there { is_class (classes_of classes.old) class.0 ≡ true }
    ensures coherent { OnOk result (IsCoherent classes.new) }
    ensures ok { OnOk result (classes_of classes.new ≡
        with_class_attr is_same_name (classes_of classes.old) class.0 name value) }
    ensures err { OnErr result (classes.new ≡ classes.old) }
{
    put(classes, class, name, value)
}
