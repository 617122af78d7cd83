//! How many places the objects of a class have.

ghost use Rattle.class_table.specs.Below.{true, IfOk, Some, class_at, is_class, is_ascending, member_count, members_in, place_count};
ghost use Rattle.std.specs.Prelude.{◌≡◌, ◌+◌};
ghost use Rattle.class_table.specs.Keys.{numbers};
ghost use Rattle.class_table.specs.Stored.{classes_of};
ghost use Rattle.class_table.specs.Coherent.{IsCoherent};

use crate::place::{find, stored_at};
use crate::stored_classes::StoredClasses;
use py_node::{OutOfMemory, PyTypeRef};

// The members of some classes, added to a count. More than fit into memory are as many as can't be had.
pub(crate) fn count_along(
    classes: &StoredClasses,
    own: usize,
    line: &[PyTypeRef],
) -> Result<usize, OutOfMemory>
    requires { is_ascending (classes_of classes.now) ≡ true }
    ensures { IfOk result (λ n. n ≡ own + members_in (classes_of classes.now) (numbers line.now)) }
{
    let mut count = own;
    for class in line {
        count = match count.checked_add(members_at(classes, *class)) {
            None => return Err(OutOfMemory),
            Some(sum) => sum,
        };
    }
    Ok(count)
}

// How many members a class itself has, where there is such a class.
pub(crate) fn members_at(classes: &StoredClasses, class: PyTypeRef) -> usize
    requires { is_ascending (classes_of classes.now) ≡ true }
    ensures { result ≡ member_count (class_at (classes_of classes.now) class.0) }
{
    match find(classes, class) {
        None => 0,
        Some(stored) => stored.own_places(),
    }
}

// How many places the objects of a class have.
pub(crate) fn count_at(classes: &StoredClasses, class: PyTypeRef) -> usize
    requires coherent { IsCoherent classes.now }
    requires there { is_class (classes_of classes.now) class.0 ≡ true }
    ensures { place_count (classes_of classes.now) class.0 ≡ Some result }
{
    stored_at(classes, class).places()
}
