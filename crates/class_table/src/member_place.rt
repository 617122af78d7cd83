//! The place that an offset stands for in the objects of a class.

ghost use Rattle.class_table.specs.Below.{true, option_map, is_class, is_ascending, layout_along, members_in, place_along, place_at};
ghost use Rattle.std.specs.Prelude.{◌≡◌};
ghost use Rattle.class_table.specs.Keys.{numbers};
ghost use Rattle.class_table.specs.Stored.{classes_of};
ghost use Rattle.class_table.specs.Coherent.{IsCoherent};

use crate::count::members_at;
use crate::place::stored_at;
use crate::stored_classes::StoredClasses;
use crate::table::ClassTable;
use py_node::{MemberPlace, PyTypeRef};

impl ClassTable {
    /// The place that an offset stands for in the objects of a class: that which so many others come before, where the
    /// places of the classes of its layout follow one another from `object` on. There is none past the last.
    pub fn place_at(&self, class: PyTypeRef, offset: usize) -> Option<MemberPlace>
        requires { is_class self.now class.0 ≡ true }
        ensures { option_map (λ p. (p.class.0, p.index)) result ≡ place_at self.now class.0 offset }
    {
        place_at(&self.classes, class, offset)
    }
}

// The place that so many others come before in the objects of a class.
pub(crate) fn place_at(
    classes: &StoredClasses,
    class: PyTypeRef,
    offset: usize,
) -> Option<MemberPlace>
    requires coherent { IsCoherent classes.now }
    requires there { is_class (classes_of classes.now) class.0 ≡ true }
    ensures { option_map (λ p. (p.class.0, p.index)) result ≡ place_at (classes_of classes.now) class.0 offset }
{
    let stored = stored_at(classes, class);
    place_along(classes, stored.mro(), stored.places(), offset)
}

// The same along a linearisation, whose classes have so many places. Those of its end come first.
fn place_along(
    classes: &StoredClasses,
    line: &[PyTypeRef],
    count: usize,
    offset: usize,
) -> Option<MemberPlace>
    requires ascending { is_ascending (classes_of classes.now) ≡ true }
    requires count { count ≡ members_in (classes_of classes.now) (numbers line.now) }
    ensures { option_map (λ p. (p.class.0, p.index)) result ≡
        place_along (classes_of classes.now) (layout_along (classes_of classes.now) (numbers line.now)) offset }
{
    let mut before = count;
    for owner in line {
        if before <= offset {
            return None;
        }
        before -= members_at(classes, *owner);
        if before <= offset {
            return Some(MemberPlace {
                class: *owner,
                index: offset - before,
            });
        }
    }
    None
}
