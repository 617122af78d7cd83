//! Slots that are found anew after an attribute was set.

ghost use Rattle.class_table.specs.Below.{length, slice_set, slice_index_or, place_of, slot_count, is_name_of, entry, natives_of};
ghost use Rattle.std.specs.Prelude.{◌≡◌, ◌<◌, ◌≤◌};
ghost use Rattle.class_table.specs.Stored.{StoredClass, classes_of};
ghost use Rattle.class_table.specs.Keys.{table_keys};
ghost use Rattle.class_table.specs.Coherent.{HasLines};
ghost use Rattle.class_table.specs.Patch.{NoneNamed, IsNear, AreNear, IsRefreshed, settled};

use crate::entries::entry;
use crate::stored::SLOTS;
use crate::stored_classes::StoredClasses;
use py_node::{PyStrInterned, PyTypeRef, SlotId};

// How many special names there are: they are the first names.
const SPECIAL_NAMES: u64 = 70;

// Whether a name is one of a slot's.
fn is_name_of(slot: SlotId, name: PyStrInterned) -> bool
    ensures { result ≡ is_name_of table_keys slot name }
{
    for other in slot.special_names() {
        if other.number() == name.0 {
            return true;
        }
    }
    false
}

// The first place of a slot that a name is one of the names of, or the count of slots where there is none.
fn first_named(name: PyStrInterned) -> usize
    ensures within { result ≤ slot_count }
    ensures before { NoneNamed name 0 result }
{
    for place in 0..SLOTS {
        if is_name_of(SlotId::at(place), name) {
            return place;
        }
    }
    SLOTS
}

// A place past the last slot that a name is one of the names of.
fn past_named(name: PyStrInterned) -> usize
    ensures within { result ≤ slot_count }
    ensures behind { NoneNamed name result slot_count }
{
    let mut past = 0;
    for place in 0..SLOTS {
        if is_name_of(SlotId::at(place), name) {
            past = place + 1;
        }
    }
    past
}

// Finds one slot of a class anew.
fn patch_slot(classes: &mut StoredClasses, place: usize, slot: SlotId)
    requires lines { HasLines classes.old }
    requires inside { place < length classes.old }
    ensures { (d : StoredClass) → classes.new ≡
        slice_set classes.old place (record (slice_index_or classes.old place d) {
          slots = slice_set (slice_index_or classes.old place d).slots (place_of slot)
              (entry table_keys natives_of (classes_of classes.old) (slice_index_or classes.old place d).number slot);
        }) }
{
    let found = entry(classes, place, slot);
    classes.set_slot(place, slot, found);
}

// Finds the slots of a name anew, where every other slot is as it should be. They stand from one place on and before
// another.
fn patch(classes: &mut StoredClasses, at: usize, name: PyStrInterned, first: usize, past: usize)
    requires lines { HasLines classes.old }
    requires within { first ≤ slot_count }
    requires ends { past ≤ slot_count }
    requires before { NoneNamed name 0 first }
    requires behind { NoneNamed name past slot_count }
    requires inside { at < length classes.old }
    requires near { (d : StoredClass) → IsNear (classes_of classes.old) name (slice_index_or classes.old at d) }
    ensures { (d : StoredClass) → classes.new ≡
        slice_set classes.old at (settled (classes_of classes.old) (slice_index_or classes.old at d)) }
{
    for place in first..past {
        let slot = SlotId::at(place);
        if is_name_of(slot, name) {
            patch_slot(classes, at, slot);
        }
    }
}

// Finds every slot of a class, each by itself.
pub(crate) fn settle_each(classes: &mut StoredClasses, at: usize)
    requires lines { HasLines classes.old }
    requires inside { at < length classes.old }
    requires full { (d : StoredClass) → length (slice_index_or classes.old at d).slots ≡ slot_count }
    ensures { (d : StoredClass) → classes.new ≡
        slice_set classes.old at (settled (classes_of classes.old) (slice_index_or classes.old at d)) }
{
    for place in 0..SLOTS {
        patch_slot(classes, at, SlotId::at(place));
    }
}

// Finds the slots of a name anew in each class that has a class along its linearisation.
fn patch_all(classes: &mut StoredClasses, class: PyTypeRef, name: PyStrInterned)
    requires lines { HasLines classes.old }
    requires near { AreNear name class.0 classes.old }
    ensures { IsRefreshed class.0 classes.old classes.new }
{
    let first = first_named(name);
    let past = past_named(name);
    for place in 0..classes.len() {
        if classes.at(place).derives(class) {
            patch(classes, place, name, first, past);
        }
    }
}

// The same. A name that is no special name changes no slot.
pub(crate) fn refresh(classes: &mut StoredClasses, class: PyTypeRef, name: PyStrInterned)
    requires lines { HasLines classes.old }
    requires near { AreNear name class.0 classes.old }
    ensures { IsRefreshed class.0 classes.old classes.new }
{
    if name.0 < SPECIAL_NAMES {
        patch_all(classes, class, name);
    }
}
