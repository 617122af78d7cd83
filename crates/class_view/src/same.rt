//! Whether two changes are the same, and whether a list of changes begins with another.

ghost use Rattle.class_view.specs.Below.{IsTrue, map, numbers, slot_names, change_of, made_of, Make, SetOwn, DelOwn, SetBases, BeginsWith};
ghost use Rattle.std.specs.Prelude.{◌≡◌};

use class_table::class_log::{ClassChange, Replica};
use py_node::{PyAttributes, PyObjectRef, PyStrInterned, PyTypeFlags, PyTypeRef};

fn is_same_name(a: PyStrInterned, b: PyStrInterned) -> bool
    ensures { IsTrue result → a ≡ b }
{
    a == b
}

fn is_same_object(a: PyObjectRef, b: PyObjectRef) -> bool
    ensures { IsTrue result → a ≡ b }
{
    a == b
}

fn is_same_attr(a: (PyStrInterned, PyObjectRef), b: (PyStrInterned, PyObjectRef)) -> bool
    ensures { IsTrue result → a ≡ b }
{
    is_same_name(a.0, b.0) && is_same_object(a.1, b.1)
}

// Whether two tables of attributes have the same names and values in the same order.
fn same_attrs(a: &PyAttributes, b: &PyAttributes) -> bool
    ensures { IsTrue result → a.now ≡ b.now }
{
    if a.len() != b.len() {
        return false;
    }
    for i in 0..a.len() {
        if !is_same_attr(a.at(i), b.at(i)) {
            return false;
        }
    }
    true
}

// Whether two lists of classes are the same.
fn same_classes(a: &[PyTypeRef], b: &[PyTypeRef]) -> bool
    ensures { IsTrue result → a.now ≡ b.now }
{
    match (a, b) {
        ([], []) => true,
        ([first, a @ ..], [other, b @ ..]) => *first == *other && same_classes(a, b),
        _ => false,
    }
}

// Whether two lists of names are the same.
fn same_names(a: &[PyStrInterned], b: &[PyStrInterned]) -> bool
    ensures { IsTrue result → a.now ≡ b.now }
{
    match (a, b) {
        ([], []) => true,
        ([first, a @ ..], [other, b @ ..]) => *first == *other && same_names(a, b),
        _ => false,
    }
}

fn same_slots(a: &Option<Vec<PyStrInterned>>, b: &Option<Vec<PyStrInterned>>) -> bool
    ensures { IsTrue result → slot_names a.now ≡ slot_names b.now }
{
    match (a, b) {
        (None, None) => true,
        (Some(names), Some(others)) => same_names(names, others),
        _ => false,
    }
}

// Whether two texts are the same.
fn same_text(a: &str, b: &str) -> bool
    ensures { IsTrue result → a.now ≡ b.now }
{
    a == b
}

// Whether a change makes this class.
fn is_make(
    class: PyTypeRef,
    name: &str,
    bases: &[PyTypeRef],
    attrs: &PyAttributes,
    slots: &Option<Vec<PyStrInterned>>,
    flags: PyTypeFlags,
    other: &ClassChange,
) -> bool
    ensures { IsTrue result → Make (made_of class name.now bases.now attrs.now slots.now flags) ≡ change_of other.now }
{
    match other {
        ClassChange::Make {
            class: other_class,
            name: other_name,
            bases: other_bases,
            attrs: other_attrs,
            slots: other_slots,
            flags: other_flags,
        } => {
            class.0 == other_class.0
                && same_text(name, other_name)
                && same_classes(bases, other_bases)
                && same_attrs(attrs, other_attrs)
                && same_slots(slots, other_slots)
                && flags.0 == other_flags.0
        }
        _ => false,
    }
}

// Whether a change sets this attribute.
fn is_set(class: PyTypeRef, name: PyStrInterned, value: PyObjectRef, other: &ClassChange) -> bool
    ensures { IsTrue result → SetOwn class.0 name value ≡ change_of other.now }
{
    match other {
        ClassChange::SetOwn {
            class: other_class,
            name: other_name,
            value: other_value,
        } => {
            class.0 == other_class.0
                && is_same_name(name, *other_name)
                && is_same_object(value, *other_value)
        }
        _ => false,
    }
}

// Whether a change takes this attribute out.
fn is_taken(class: PyTypeRef, name: PyStrInterned, other: &ClassChange) -> bool
    ensures { IsTrue result → DelOwn class.0 name ≡ change_of other.now }
{
    match other {
        ClassChange::DelOwn {
            class: other_class,
            name: other_name,
        } => class.0 == other_class.0 && is_same_name(name, *other_name),
        _ => false,
    }
}

// Whether a change gives a class these bases.
fn is_rebase(class: PyTypeRef, bases: &[PyTypeRef], other: &ClassChange) -> bool
    ensures { IsTrue result → SetBases class.0 (numbers bases.now) ≡ change_of other.now }
{
    match other {
        ClassChange::SetBases {
            class: other_class,
            bases: other_bases,
        } => class.0 == other_class.0 && same_classes(bases, other_bases),
        _ => false,
    }
}

// Whether two changes are the same.
fn same(a: &ClassChange, b: &ClassChange) -> bool
    ensures { IsTrue result → change_of a.now ≡ change_of b.now }
{
    match a {
        ClassChange::Make {
            class,
            name,
            bases,
            attrs,
            slots,
            flags,
        } => is_make(*class, name, bases, attrs, slots, *flags, b),
        ClassChange::SetOwn { class, name, value } => is_set(*class, *name, *value, b),
        ClassChange::DelOwn { class, name } => is_taken(*class, *name, b),
        ClassChange::SetBases { class, bases } => is_rebase(*class, bases, b),
    }
}

// Whether a list of changes begins with a part.
fn begins_with(list: &[ClassChange], part: &[ClassChange]) -> bool
    ensures { IsTrue result → BeginsWith (map change_of part.now) (map change_of list.now) }
{
    if part.len() > list.len() {
        return false;
    }
    for i in 0..part.len() {
        if !same(&list[i], &part[i]) {
            return false;
        }
    }
    true
}

// Whether the changes of a replica begin with those of another one.
pub(crate) fn is_ahead(after: &Replica, before: &Replica) -> bool
    ensures { IsTrue result → BeginsWith before.now after.now }
{
    begins_with(after.changes(), before.changes())
}
