//! An attribute of a class that is taken out.

ghost use Rattle.class_table.specs.Below.{true, false, is_some, is_same_name, class_at, is_class, own_of, without_class_attr};
ghost use Rattle.std.specs.Prelude.{◌≡◌};
ghost use Rattle.class_table.specs.Stored.{StoredClass, classes_of};
ghost use Rattle.class_table.specs.Coherent.{IsCoherent};

use crate::place::place;
use crate::refresh::refresh;
use crate::stored_classes::StoredClasses;
use py_node::{PyStrInterned, PyTypeRef};

// Takes an attribute out, and finds the slots anew that change with it. It says whether the attribute was there.
pub(crate) fn take(classes: &mut StoredClasses, class: PyTypeRef, name: PyStrInterned) -> bool
    requires coherent { IsCoherent classes.old }
    requires there { is_class (classes_of classes.old) class.0 ≡ true }
    ensures coherent { IsCoherent classes.new }
    ensures there { result ≡ is_some (own_of (λ k. is_same_name k name) (class_at (classes_of classes.old) class.0)) }
    ensures taken { classes_of classes.new ≡
        without_class_attr is_same_name (classes_of classes.old) class.0 name }
    ensures absent { result ≡ false → classes.new ≡ classes.old }
{
    let at = place(classes, class);
    let there = classes.remove_attr(at, name);
    if there {
        refresh(classes, class, name);
        return true;
    }
    false
}

// The same, of the classes of a table.
pub(crate) fn take_from(classes: &mut StoredClasses, class: PyTypeRef, name: PyStrInterned) -> bool
    requires coherent { IsCoherent classes.old }
    requires there { is_class (classes_of classes.old) class.0 ≡ true }
    ensures coherent { IsCoherent classes.new }
    ensures there { result ≡
        is_some (own_of (λ k. is_same_name k name) (class_at (classes_of classes.old) class.0)) }
    ensures taken { classes_of classes.new ≡
        without_class_attr is_same_name (classes_of classes.old) class.0 name }
    ensures absent { result ≡ false → classes.new ≡ classes.old }
{
    take(classes, class, name)
}
