//! A class that gets another name.

ghost use Rattle.class_table.specs.Below.{true, OnOk, OnErr, is_class, with_class_name};
ghost use Rattle.std.specs.Prelude.{◌≡◌};
ghost use Rattle.class_table.specs.Stored.{StoredClass, classes_of};
ghost use Rattle.class_table.specs.Coherent.{IsCoherent};

use crate::place::place;
use crate::stored_classes::StoredClasses;
use py_node::{OutOfMemory, PyTypeRef};
use std::alloc::Global;

// Gives a class another name. Nothing else of any class changes.
pub(crate) fn rename(
    classes: &mut StoredClasses,
    alloc: Global,
    class: PyTypeRef,
    name: &str,
) -> Result<(), OutOfMemory>
    requires coherent { IsCoherent classes.old }
    requires there { is_class (classes_of classes.old) class.0 ≡ true }
    ensures coherent { OnOk result (IsCoherent classes.new) }
    ensures named { OnOk result (classes_of classes.new ≡ with_class_name (classes_of classes.old) class.0 name.now) }
    ensures err { OnErr result (classes.new ≡ classes.old) }
{
    let text = String::from_str(alloc, name)?;
    let at = place(classes, class);
    classes.set_name(at, text);
    Ok(())
}

// The same, of the classes of a table.
pub(crate) fn rename_in(
    classes: &mut StoredClasses,
    alloc: Global,
    class: PyTypeRef,
    name: &str,
) -> Result<(), OutOfMemory>
    requires coherent { IsCoherent classes.old }
    requires there { is_class (classes_of classes.old) class.0 ≡ true }
    ensures coherent { OnOk result (IsCoherent classes.new) }
    ensures named { OnOk result (classes_of classes.new ≡
        with_class_name (classes_of classes.old) class.0 name.now) }
    ensures err { OnErr result (classes.new ≡ classes.old) }
{
    rename(classes, alloc, class, name)
}
