//! What a class itself has in a slot, found from the attributes and linearisations that are kept.

ghost use Rattle.class_table.specs.Below.{true, not, Some, length, slice_index_or, value_of, is_same_name, sort_of, class_at, is_heap, own_of, along, first_along, is_none, is_name_of, wrapped, heap_entry, given_entry, is_by_itself, entry, is_ascending, natives_of};
ghost use Rattle.std.specs.Prelude.{◌≡◌, ◌<◌, ◌&&◌};
ghost use Rattle.class_table.specs.Stored.{StoredClass, class_of, classes_of};
ghost use Rattle.class_table.specs.Keys.{numbers, table_keys};
ghost use Rattle.class_table.specs.Coherent.{HasLines};

use crate::natives::built_in_entry;
use crate::place::{find_near, likely};
use crate::stored_classes::StoredClasses;
use crate::stored_ref::StoredRef;
use py_node::{PyAttributes, PyObjectRef, PyTypeRef, SlotEntry, SlotId, Sort};

// Whether an object is None.
fn is_none(value: PyObjectRef) -> bool
    ensures { result ≡ is_none value }
{
    value.0 == 23
}

// What a slot holds where one of its names has a value.
pub(crate) fn wrapper(slot: SlotId, value: PyObjectRef) -> SlotEntry
    ensures { Some result ≡ wrapped slot (Some value) }
{
    if slot == SlotId::Hash && is_none(value) {
        SlotEntry::Unhashable
    } else {
        SlotEntry::Wrapper(slot)
    }
}

// What a slot holds by a class's own attributes.
fn own_wrapper(attrs: &PyAttributes, slot: SlotId) -> Option<SlotEntry>
    ensures { result ≡ wrapped slot (value_of (is_name_of table_keys slot) attrs.now) }
{
    for name in slot.special_names() {
        if let Some(value) = attrs.get(name.interned()) {
            return Some(wrapper(slot, value));
        }
    }
    None
}

// The same of a class by its number, where there is such a class.
fn wrapper_at(
    classes: &StoredClasses,
    near: usize,
    class: PyTypeRef,
    slot: SlotId,
) -> Option<SlotEntry>
    requires { is_ascending (classes_of classes.now) ≡ true }
    ensures { result ≡ wrapped slot (own_of (is_name_of table_keys slot) (class_at (classes_of classes.now) class.0)) }
{
    match find_near(classes, near, class) {
        None => None,
        Some(stored) => own_wrapper(stored.attributes(), slot),
    }
}

// What a slot holds by the attributes of some classes.
#[tactic(auto, using(crate::proofs::Along::wrapped_or_else))]
fn wrapper_along(
    classes: &StoredClasses,
    near: &[usize],
    line: &[PyTypeRef],
    slot: SlotId,
) -> Option<SlotEntry>
    requires { is_ascending (classes_of classes.now) ≡ true }
    ensures { result ≡ wrapped slot (along (is_name_of table_keys slot) (classes_of classes.now) (numbers line.now)) }
{
    for (place, class) in line.iter().enumerate() {
        if let Some(entry) = wrapper_at(classes, likely(near, place), *class, slot) {
            return Some(entry);
        }
    }
    None
}

// What a heap class has in a slot.
fn heap_entry(
    classes: &StoredClasses,
    near: &[usize],
    class: PyTypeRef,
    line: &[PyTypeRef],
    slot: SlotId,
) -> Option<SlotEntry>
    requires { is_ascending (classes_of classes.now) ≡ true }
    ensures { result ≡ heap_entry table_keys (classes_of classes.now) class.0 (numbers line.now) slot }
{
    if slot == SlotId::New {
        wrapper_at(classes, likely(near, 0), class, slot)
    } else {
        wrapper_along(classes, near, line, slot)
    }
}

// What a class has in a slot by its attributes or as a native.
fn given_entry(
    classes: &StoredClasses,
    near: usize,
    class: PyTypeRef,
    slot: SlotId,
) -> Option<SlotEntry>
    requires { HasLines classes.now }
    ensures { result ≡ given_entry table_keys natives_of (classes_of classes.now) slot class.0 }
{
    match find_near(classes, near, class) {
        Some(stored) if stored.is_heap() => heap_entry(
            classes,
            stored.near(),
            class,
            stored.mro(),
            slot,
        ),
        _ => built_in_entry(class, slot),
    }
}

// The first such among some classes.
fn given_along(
    classes: &StoredClasses,
    near: &[usize],
    line: &[PyTypeRef],
    slot: SlotId,
) -> Option<SlotEntry>
    requires { HasLines classes.now }
    ensures { result ≡
        first_along (given_entry table_keys natives_of (classes_of classes.now) slot) (numbers line.now) }
{
    for (place, class) in line.iter().enumerate() {
        if let Some(entry) = given_entry(classes, likely(near, place), *class, slot) {
            return Some(entry);
        }
    }
    None
}

// Whether a class lacks the slot for good, so that the nearest class along its linearisation gives it.
pub(crate) fn is_inherited(stored: &StoredRef<'_>, slot: SlotId) -> bool
    ensures { result ≡ (not (is_heap (class_of stored.now)) && is_by_itself (sort_of slot)) }
{
    !stored.is_heap() && is_own(slot)
}

fn is_own(slot: SlotId) -> bool
    ensures { result ≡ is_by_itself (sort_of slot) }
{
    slot.sort() == Sort::ByItself
}

// What the class at a place itself has in a slot.
pub(crate) fn entry(classes: &StoredClasses, place: usize, slot: SlotId) -> Option<SlotEntry>
    requires lines { HasLines classes.now }
    requires inside { place < length classes.now }
    ensures { (d : StoredClass) → result ≡
        entry table_keys natives_of (classes_of classes.now) (slice_index_or classes.now place d).number slot }
{
    let stored = classes.at(place);
    if is_inherited(&stored, slot) {
        given_along(classes, stored.near(), stored.mro(), slot)
    } else {
        given_entry(classes, place, stored.number(), slot)
    }
}
