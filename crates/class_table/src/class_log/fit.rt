//! Whether a change can be made to a table of classes: what it names is there.

ghost use Rattle.class_table.specs.Below.{IsTrue};
ghost use Rattle.std.specs.Prelude.{◌↔◌};
ghost use Rattle.class_table.specs.Keys.{numbers};
ghost use Rattle.class_table.specs.Refused.{AreThere};
ghost use Rattle.class_table.specs.ClassLog.Change.{change_of, made_of};
ghost use Rattle.class_table.specs.ClassLog.Shown.{is_of_script};
ghost use Rattle.class_table.specs.ClassLog.Refused.{CanBeMade, IsFit, IsOfItsKind};

use crate::ClassTable;
use crate::class_log::change::ClassChange;
use py_node::{PyAttributes, PyStrInterned, PyTypeFlags, PyTypeRef};

// Whether some numbers are all those of classes.
fn are_there(classes: &ClassTable, named: &[PyTypeRef]) -> bool
    ensures { IsTrue result ↔ AreThere classes.now (numbers named.now) }
{
    match named {
        [] => true,
        [first, rest @ ..] => classes.has_class(*first) && are_there(classes, rest),
    }
}

// Whether the flags of a class are those that a script gives it, or it has what static classes have.
fn is_of_its_kind(
    classes: &ClassTable,
    class: PyTypeRef,
    name: &str,
    bases: &[PyTypeRef],
    attrs: &PyAttributes,
    slots: &Option<Vec<PyStrInterned>>,
    flags: PyTypeFlags,
) -> bool
    ensures { IsTrue result ↔ (let m = made_of class name.now bases.now attrs.now slots.now flags in
        IsOfItsKind classes.now m (is_of_script m)) }
{
    if flags.has_feature(PyTypeFlags::HEAPTYPE) {
        let dict = classes.would_have_dict(bases, slots);
        flags.0 == PyTypeFlags::of_script_class(dict).0
    } else {
        slots.is_none() && bases.len() == 1
    }
}

// Whether what a change names is there.
pub(crate) fn is_fit(classes: &ClassTable, change: &ClassChange) -> bool
    ensures { IsTrue result ↔ IsFit classes.now (change_of change.now) }
{
    match change {
        ClassChange::Make {
            class,
            name,
            bases,
            attrs,
            slots,
            flags,
        } => {
            classes.takes(*class)
                && are_there(classes, bases)
                && is_of_its_kind(classes, *class, name, bases, attrs, slots, *flags)
        }
        ClassChange::SetOwn {
            class,
            name: _,
            value: _,
        } => classes.has_class(*class),
        ClassChange::DelOwn { class, name: _ } => classes.has_class(*class),
        ClassChange::SetBases { class, bases } => {
            classes.has_class(*class) && are_there(classes, bases)
        }
    }
}
