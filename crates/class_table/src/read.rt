//! How a slot is read along a linearisation, and how an attribute is found.

ghost use Rattle.class_table.specs.Below.{ℕ, true, Option, SlotEntry as Entry, SlotId as Slot, is_same_name, all_slots, sort_of, Includes, class_at, is_class, own_of, along, first_along, past_first, entry, slot as slot_read, has_table, first_with, read_along, is_ascending, natives_of};
ghost use Rattle.std.specs.Prelude.{◌≡◌};
ghost use Rattle.class_table.specs.Stored.{classes_of};
ghost use Rattle.class_table.specs.Keys.{numbers, number_of, table_keys};
ghost use Rattle.class_table.specs.Coherent.{IsCoherent};
ghost use Rattle.class_table.specs.Table.{table_sort, any_filled};

use crate::place::{find_near, likely, stored_at};
use crate::stored_classes::StoredClasses;
use py_node::{PyObjectRef, PyStrInterned, PyTypeRef, SlotEntry, SlotId, Sort};

// A class's own value, where there is such a class.
pub(crate) fn own_at(
    classes: &StoredClasses,
    near: usize,
    class: PyTypeRef,
    name: PyStrInterned,
) -> Option<PyObjectRef>
    requires { is_ascending (classes_of classes.now) ≡ true }
    ensures { result ≡ own_of (λ k. is_same_name k name) (class_at (classes_of classes.now) class.0) }
{
    match find_near(classes, near, class) {
        None => None,
        Some(stored) => stored.own(name),
    }
}

// The first value along some classes.
pub(crate) fn value_along(
    classes: &StoredClasses,
    near: &[usize],
    line: &[PyTypeRef],
    name: PyStrInterned,
) -> Option<PyObjectRef>
    requires { is_ascending (classes_of classes.now) ≡ true }
    ensures { result ≡ along (λ k. is_same_name k name) (classes_of classes.now) (numbers line.now) }
{
    for (place, class) in line.iter().enumerate() {
        if let Some(value) = own_at(classes, likely(near, place), *class, name) {
            return Some(value);
        }
    }
    None
}

// The first value along some classes past the first.
pub(crate) fn value_past(
    classes: &StoredClasses,
    near: &[usize],
    line: &[PyTypeRef],
    name: PyStrInterned,
) -> Option<PyObjectRef>
    requires { is_ascending (classes_of classes.now) ≡ true }
    ensures { result ≡ along (λ k. is_same_name k name) (classes_of classes.now) (past_first (numbers line.now)) }
{
    if line.is_empty() {
        None
    } else {
        value_along(
            classes,
            if near.is_empty() { near } else { &near[1..] },
            &line[1..],
            name,
        )
    }
}

// What a class itself has in a slot, as it is kept.
pub(crate) fn own_entry(
    classes: &StoredClasses,
    class: PyTypeRef,
    slot: SlotId,
) -> Option<SlotEntry>
    requires coherent { IsCoherent classes.now }
    requires there { is_class (classes_of classes.now) class.0 ≡ true }
    ensures { result ≡ entry table_keys natives_of (classes_of classes.now) class.0 slot }
{
    stored_at(classes, class).entry(slot)
}

// The first own entry along some classes.
fn nearest(classes: &StoredClasses, line: &[PyTypeRef], slot: SlotId) -> Option<SlotEntry>
    requires coherent { IsCoherent classes.now }
    requires inside { (x : ℕ) → Includes (numbers line.now) x → is_class (classes_of classes.now) x ≡ true }
    ensures { result ≡
        first_along (λ d. entry table_keys natives_of (classes_of classes.now) d slot) (numbers line.now) }
{
    for class in line {
        if let Some(found) = own_entry(classes, *class, slot) {
            return Some(found);
        }
    }
    None
}

// The slots of sequences, or of mappings.
#[tactic(auto, unfolding(py_node::specs::Slots::all_slots, py_node::specs::Slots::slot_sorts, py_node::specs::Slots::place_of, py_node::specs::Slots::sort_of))]
fn slots_in(mapping: bool) -> &'static [SlotId]
    ensures { (own : Slot → Option Entry) → any_filled own result.now ≡ has_table own (table_sort mapping) all_slots }
{
    if mapping {
        &[
            SlotId::MapLength,
            SlotId::MapSubscript,
            SlotId::MapAssSubscript,
        ]
    } else {
        &[
            SlotId::SeqLength,
            SlotId::SeqItem,
            SlotId::SeqAssItem,
            SlotId::SeqContains,
            SlotId::Concat,
            SlotId::Repeat,
            SlotId::InplaceConcat,
            SlotId::InplaceRepeat,
        ]
    }
}

// Whether a class fills any of some slots.
fn fills_any(classes: &StoredClasses, class: PyTypeRef, slots: &[SlotId]) -> bool
    requires coherent { IsCoherent classes.now }
    requires there { is_class (classes_of classes.now) class.0 ≡ true }
    ensures { result ≡ any_filled (entry table_keys natives_of (classes_of classes.now) class.0) slots.now }
{
    for slot in slots {
        if own_entry(classes, class, *slot).is_some() {
            return true;
        }
    }
    false
}

// Whether a class has the table of sequences, or of mappings.
fn has_table(classes: &StoredClasses, class: PyTypeRef, mapping: bool) -> bool
    requires coherent { IsCoherent classes.now }
    requires there { is_class (classes_of classes.now) class.0 ≡ true }
    ensures { result ≡ has_table (entry table_keys natives_of (classes_of classes.now) class.0) (table_sort mapping)
        all_slots }
{
    fills_any(classes, class, slots_in(mapping))
}

// The entry of the first class along some that has the table.
fn of_table(
    classes: &StoredClasses,
    line: &[PyTypeRef],
    mapping: bool,
    slot: SlotId,
) -> Option<SlotEntry>
    requires coherent { IsCoherent classes.now }
    requires inside { (x : ℕ) → Includes (numbers line.now) x → is_class (classes_of classes.now) x ≡ true }
    ensures { result ≡ read_along (entry table_keys natives_of (classes_of classes.now)) (table_sort mapping) 0
        (numbers line.now) slot }
{
    for class in line {
        if has_table(classes, *class, mapping) {
            return own_entry(classes, *class, slot);
        }
    }
    None
}

// A slot as it is read along a linearisation.
fn read_along(
    classes: &StoredClasses,
    class: PyTypeRef,
    line: &[PyTypeRef],
    slot: SlotId,
) -> Option<SlotEntry>
    requires coherent { IsCoherent classes.now }
    requires own { is_class (classes_of classes.now) class.0 ≡ true }
    requires inside { (x : ℕ) → Includes (numbers line.now) x → is_class (classes_of classes.now) x ≡ true }
    ensures { result ≡ read_along (entry table_keys natives_of (classes_of classes.now)) (sort_of slot) class.0
        (numbers line.now) slot }
{
    match slot.sort() {
        Sort::ByItself => own_entry(classes, class, slot),
        Sort::BySequence => of_table(classes, line, false, slot),
        Sort::ByMapping => of_table(classes, line, true, slot),
        Sort::Nearest => nearest(classes, line, slot),
    }
}

// A slot as it is read for a class.
pub(crate) fn read(classes: &StoredClasses, class: PyTypeRef, slot: SlotId) -> Option<SlotEntry>
    requires coherent { IsCoherent classes.now }
    requires there { is_class (classes_of classes.now) class.0 ≡ true }
    ensures { result ≡ slot_read table_keys natives_of (classes_of classes.now) class.0 slot }
{
    read_along(classes, class, stored_at(classes, class).mro(), slot)
}
