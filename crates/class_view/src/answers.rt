//! What a reader asks of the classes that it is lent.

ghost use Rattle.class_view.specs.Below.{IfOk, option_map, is_same_name, found, lin, is_sub, numbers};
ghost use Rattle.std.specs.Prelude.{◌≡◌};

use class_table::ClassTable;
use py_node::{OutOfMemory, PyObjectRef, PyStrInterned, PyTypeRef};

// The value of a name in the first class along the linearisation that has it.
#[tactic(auto, using(crate::proofs::Absent::found_absent))]
pub(crate) fn find(
    classes: &ClassTable,
    class: PyTypeRef,
    name: PyStrInterned,
) -> Option<PyObjectRef>
    ensures { result ≡ found is_same_name classes.now class.0 name }
{
    if classes.has_class(class) {
        classes.get_attr(class, name)
    } else {
        None
    }
}

// Whether a class is another one or has it along its linearisation.
#[tactic(auto, using(crate::proofs::Absent::sub_absent))]
pub(crate) fn is_subclass(classes: &ClassTable, class: PyTypeRef, other: PyTypeRef) -> bool
    ensures { result ≡ is_sub classes.now class.0 other.0 }
{
    if classes.has_class(class) {
        classes.fast_issubclass(class, other)
    } else {
        false
    }
}

// The linearisation of a class, where it is there.
#[tactic(auto, using(crate::proofs::Absent::line_absent))]
pub(crate) fn linearisation(
    classes: &ClassTable,
    class: PyTypeRef,
) -> Result<Option<Vec<PyTypeRef>>, OutOfMemory>
    ensures { IfOk result (λ o. option_map (λ v. numbers v.items) o ≡ lin classes.now class.0) }
{
    if classes.has_class(class) {
        Ok(Some(classes.mro_collect(class)?))
    } else {
        Ok(None)
    }
}
