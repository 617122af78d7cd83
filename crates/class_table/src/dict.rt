//! Which classes give their objects a dict, and what `__slots__` say of it.

ghost use Rattle.class_table.specs.Below.{true, filter, not, list_any, class_at, is_class, alike, has_dict, any_has_dict, keeps_dict, is_dict, slot_members, slots_bring, is_ascending};
ghost use Rattle.std.specs.Prelude.{◌≡◌, ◌||◌};
ghost use Rattle.class_table.specs.Keys.{numbers, table_keys, slot_names};
ghost use Rattle.class_table.specs.Stored.{classes_of};

use crate::place::{find, stored_at};
use crate::stored_classes::StoredClasses;
use crate::table::ClassTable;
use py_node::{Known, PyStrInterned, PyTypeRef};
use std::alloc::Global;

// Whether a class gives its objects a dict.
fn has_dict(classes: &StoredClasses, class: PyTypeRef) -> bool
    requires { is_ascending (classes_of classes.now) ≡ true }
    ensures { result ≡ has_dict (classes_of classes.now) class.0 }
{
    match find(classes, class) {
        None => false,
        Some(stored) => stored.has_dict(),
    }
}

// Whether one of some classes gives its objects a dict.
pub(crate) fn any_has_dict(classes: &StoredClasses, bases: &[PyTypeRef]) -> bool
    requires { is_ascending (classes_of classes.now) ≡ true }
    ensures { result ≡ any_has_dict (classes_of classes.now) (numbers bases.now) }
{
    for base in bases {
        if has_dict(classes, *base) {
            return true;
        }
    }
    false
}

// Whether a class gives its objects a dict under other bases exactly where it does now.
pub(crate) fn keeps_dict(classes: &StoredClasses, class: PyTypeRef, bases: &[PyTypeRef]) -> bool
    requires ascending { is_ascending (classes_of classes.now) ≡ true }
    requires there { is_class (classes_of classes.now) class.0 ≡ true }
    ensures { result ≡ keeps_dict (classes_of classes.now) class.0 (numbers bases.now) }
{
    let stored = stored_at(classes, class);
    let dict = stored.brings() || any_has_dict(classes, bases);
    dict == stored.has_dict()
}

// Whether two classes give both their objects a dict, or neither of them does.
pub(crate) fn agree(classes: &StoredClasses, class: PyTypeRef, other: PyTypeRef) -> bool
    requires { is_ascending (classes_of classes.now) ≡ true }
    ensures { result ≡ alike (has_dict (classes_of classes.now) class.0) (has_dict (classes_of classes.now) other.0) }
{
    has_dict(classes, class) == has_dict(classes, other)
}

impl ClassTable {
    /// Whether a class with these bases and these `__slots__`, or with none, gives its objects a dict.
    pub fn would_have_dict(&self, bases: &[PyTypeRef], slots: &Option<Vec<PyStrInterned>>) -> bool
        ensures { result ≡ (slots_bring table_keys (slot_names slots.now) || any_has_dict self.now (numbers bases.now)) }
    {
        slots_bring(slots) || any_has_dict(&self.classes, bases)
    }
}

// Whether a name is `__dict__`, which is no member's.
fn is_dict(name: PyStrInterned) -> bool
    ensures { result ≡ is_dict table_keys name }
{
    name.0 == Known::Dict.number()
}

// Whether one of some names is `__dict__`.
fn any_is_dict(names: &[PyStrInterned]) -> bool
    ensures { result ≡ list_any (is_dict table_keys) names.now }
{
    for name in names {
        if is_dict(*name) {
            return true;
        }
    }
    false
}

/// Whether a class with these `__slots__`, or with none, brings its objects a dict: it has none, or `__dict__` is among
/// them.
pub fn slots_bring(slots: &Option<Vec<PyStrInterned>>) -> bool
    ensures { result ≡ slots_bring table_keys (slot_names slots.now) }
{
    match slots {
        None => true,
        Some(names) => any_is_dict(names),
    }
}

/// The members of a class with these `__slots__`, or with none: all names but `__dict__`, in order.
pub fn slot_members(alloc: Global, slots: Option<Vec<PyStrInterned>>) -> Vec<PyStrInterned>
    ensures { result.items ≡ slot_members table_keys (slot_names slots) }
{
    match slots {
        None => Vec::new(alloc),
        Some(names) => without_dict(names),
    }
}

// Some names but `__dict__`.
fn without_dict(names: Vec<PyStrInterned>) -> Vec<PyStrInterned>
    ensures { result.items ≡ filter (λ n. not (is_dict table_keys n)) names.items }
{
    let mut members = names;
    members.retain(|name| !is_dict(*name));
    members
}
