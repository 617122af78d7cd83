//! Slots that are found anew after the bases of a class were changed.

ghost use Rattle.class_table.specs.Below.{ℕ, true, false, length, Some, slice_get, slice_set, slice_index_or, place_of, slot_count, first_along, is_heap, given_entry, entry, entries, natives_of};
ghost use Rattle.std.specs.Prelude.{◌≡◌, ◌<◌, ◌≤◌, ◌*◌};
ghost use Rattle.class_table.specs.Stored.{StoredClass, class_of, classes_of};
ghost use Rattle.class_table.specs.Keys.{numbers, table_keys};
ghost use Rattle.class_table.specs.Coherent.{HasLines};
ghost use Rattle.class_table.specs.Patch.{settled};
ghost use Rattle.class_table.specs.Probe.{special_count};
ghost use Rattle.class_table.specs.Settle.{AreHeapsSettled, AreSettled, is_ranked, is_heap_ranked, is_static_ranked, places_kept};
ghost use Rattle.class_table.specs.Steps.{RiseBy};

use crate::descendants::Ranked;
use crate::entries::is_inherited;
use crate::natives::built_in_entry;
use crate::place::{find_near, likely};
use crate::probe::{slot_by, values_for};
use crate::refresh::settle_each;
use crate::steps::Steps;
use crate::stored::SLOTS;
use crate::stored_classes::StoredClasses;
use py_node::{PyTypeRef, SlotEntry, SlotId};
use std::marker::Brand;
use std::sync::ledger::{Blank, Ledger};

// Puts what stands in a slot of the class at a place.
fn put_slot(classes: &mut StoredClasses, at: usize, slot: SlotId, entry: Option<SlotEntry>)
    requires { at < length classes.old }
    ensures { (d : StoredClass) → classes.new ≡ slice_set classes.old at (record (slice_index_or classes.old at d) {
      slots = slice_set (slice_index_or classes.old at d).slots (place_of slot) entry;
    }) }
{
    classes.set_slot(at, slot, entry);
}

// Finds every slot of a class that a script made, by its special names along its linearisation.
fn settle_heap<L: Ledger>(classes: &mut StoredClasses, at: usize, steps: &mut Steps<L>)
    requires lines { HasLines classes.old }
    requires inside { at < length classes.old }
    requires full { (d : StoredClass) → length (slice_index_or classes.old at d).slots ≡ slot_count }
    requires heap { (d : StoredClass) → is_heap (class_of (slice_index_or classes.old at d)) ≡ true }
    ensures set { (d : StoredClass) → classes.new ≡
        slice_set classes.old at (settled (classes_of classes.old) (slice_index_or classes.old at d)) }
    ensures steps { (d : StoredClass) →
        RiseBy 0 (special_count * length (slice_index_or classes.old at d).mro) steps.old steps.new }
{
    let values = values_for(classes, at, steps);
    for place in 0..SLOTS {
        let slot = SlotId::at(place);
        let entry = slot_by(&values, slot);
        put_slot(classes, at, slot, entry);
    }
}

// The same. Its probes are counted for nobody.
fn settle_uncounted<L: Ledger>(classes: &mut StoredClasses, at: usize, blank: Blank)
    requires lines { HasLines classes.old }
    requires inside { at < length classes.old }
    requires full { (d : StoredClass) → length (slice_index_or classes.old at d).slots ≡ slot_count }
    requires heap { (d : StoredClass) → is_heap (class_of (slice_index_or classes.old at d)) ≡ true }
    requires name { blank.name ≡ L.name }
    requires parts { blank.parts ≡ L.parts }
    requires both { 2 ≤ L.parts }
    ensures { (d : StoredClass) → classes.new ≡
        slice_set classes.old at (settled (classes_of classes.old) (slice_index_or classes.old at d)) }
{
    let mut steps = Steps::<L>::new(blank);
    settle_heap(classes, at, &mut steps);
}

// What a class has in a slot by its attributes or as a native: for a class that a script made it is what is kept.
fn kept_entry(
    classes: &StoredClasses,
    near: usize,
    class: PyTypeRef,
    slot: SlotId,
) -> Option<SlotEntry>
    requires lines { HasLines classes.now }
    requires heaps { AreHeapsSettled classes.now }
    ensures { result ≡ given_entry table_keys natives_of (classes_of classes.now) slot class.0 }
{
    match find_near(classes, near, class) {
        Some(stored) if stored.is_heap() => stored.entry(slot),
        _ => built_in_entry(class, slot),
    }
}

// The first such among some classes.
fn kept_along(
    classes: &StoredClasses,
    near: &[usize],
    line: &[PyTypeRef],
    slot: SlotId,
) -> Option<SlotEntry>
    requires lines { HasLines classes.now }
    requires heaps { AreHeapsSettled classes.now }
    ensures { result ≡
        first_along (given_entry table_keys natives_of (classes_of classes.now) slot) (numbers line.now) }
{
    for (place, class) in line.iter().enumerate() {
        if let Some(entry) = kept_entry(classes, likely(near, place), *class, slot) {
            return Some(entry);
        }
    }
    None
}

// What a class that no script made has in a slot: what it lacks for good is that of the nearest class that has it.
fn static_entry(classes: &StoredClasses, at: usize, slot: SlotId) -> Option<SlotEntry>
    requires lines { HasLines classes.now }
    requires heaps { AreHeapsSettled classes.now }
    requires inside { at < length classes.now }
    ensures { (d : StoredClass) → result ≡
        entry table_keys natives_of (classes_of classes.now) (slice_index_or classes.now at d).number slot }
{
    let stored = classes.at(at);
    if is_inherited(&stored, slot) {
        kept_along(classes, stored.near(), stored.mro(), slot)
    } else {
        kept_entry(classes, at, stored.number(), slot)
    }
}

// Finds every slot of a class that no script made.
fn settle_static(classes: &mut StoredClasses, at: usize)
    requires lines { HasLines classes.old }
    requires heaps { AreHeapsSettled classes.old }
    requires inside { at < length classes.old }
    requires full { (d : StoredClass) → length (slice_index_or classes.old at d).slots ≡ slot_count }
    requires not_heap { (d : StoredClass) → is_heap (class_of (slice_index_or classes.old at d)) ≡ false }
    ensures { (d : StoredClass) → classes.new ≡
        slice_set classes.old at (settled (classes_of classes.old) (slice_index_or classes.old at d)) }
{
    for place in 0..SLOTS {
        let slot = SlotId::at(place);
        let entry = static_entry(classes, at, slot);
        put_slot(classes, at, slot, entry);
    }
}

// Whether a script made the class at a place.
fn is_heap_at(classes: &StoredClasses, at: usize) -> bool
    requires { at < length classes.now }
    ensures { (k : StoredClass) → slice_get classes.now at ≡ Some k → result ≡ is_heap (class_of k) }
{
    classes.at(at).is_heap()
}

// Finds every slot of the class at a place.
pub(crate) fn settle(classes: &mut StoredClasses, at: usize)
    requires lines { HasLines classes.old }
    requires inside { at < length classes.old }
    requires full { (d : StoredClass) → length (slice_index_or classes.old at d).slots ≡ slot_count }
    ensures { (d : StoredClass) → classes.new ≡
        slice_set classes.old at (settled (classes_of classes.old) (slice_index_or classes.old at d)) }
{
    if is_heap_at(classes, at) {
        settle_uncounted::<Brand>(classes, at, Blank::new(2));
    } else {
        settle_each(classes, at);
    }
}

// Finds every slot of those classes at some places that a script made. It counts at most one probe for each special name
// and each place of their linearisations.
fn settle_heaps<L: Ledger>(classes: &mut StoredClasses, ranked: &[Ranked], steps: &mut Steps<L>)
    requires lines { HasLines classes.old }
    requires full { (i : ℕ) (k : StoredClass) → slice_get classes.old i ≡ Some k → length k.slots ≡ slot_count }
    requires inside { (j : ℕ) (r : Ranked) → slice_get ranked.now j ≡ Some r → r.place < length classes.old }
    ensures settled { AreSettled (is_heap_ranked ranked.now) classes.old classes.new }
    ensures steps { RiseBy 0 (special_count * places_kept classes.old ranked.now) steps.old steps.new }
{
    for next in ranked {
        if is_heap_at(classes, next.place) {
            settle_heap(classes, next.place, steps);
        }
    }
}

// Finds every slot of those that no script made, where each class that a script made has its own.
fn settle_statics(classes: &mut StoredClasses, ranked: &[Ranked])
    requires lines { HasLines classes.old }
    requires heaps { AreHeapsSettled classes.old }
    requires full { (i : ℕ) (k : StoredClass) → slice_get classes.old i ≡ Some k → length k.slots ≡ slot_count }
    requires inside { (j : ℕ) (r : Ranked) → slice_get ranked.now j ≡ Some r → r.place < length classes.old }
    ensures { AreSettled (is_static_ranked ranked.now) classes.old classes.new }
{
    for next in ranked {
        if !is_heap_at(classes, next.place) {
            settle_static(classes, next.place);
        }
    }
}

// Finds every slot of the classes at some places: first of those that a script made, from which the others take what
// they lack.
pub(crate) fn settle_all<L: Ledger>(
    classes: &mut StoredClasses,
    ranked: &[Ranked],
    steps: &mut Steps<L>,
)
    requires lines { HasLines classes.old }
    requires full { (i : ℕ) (k : StoredClass) → slice_get classes.old i ≡ Some k → length k.slots ≡ slot_count }
    requires inside { (j : ℕ) (r : Ranked) → slice_get ranked.now j ≡ Some r → r.place < length classes.old }
    requires away { (i : ℕ) (k : StoredClass) → slice_get classes.old i ≡ Some k → is_ranked ranked.now i ≡ false →
        k.slots ≡ entries table_keys natives_of (classes_of classes.old) k.number }
    ensures settled { AreSettled (λ i k. is_ranked ranked.now i) classes.old classes.new }
    ensures steps { RiseBy 0 (special_count * places_kept classes.old ranked.now) steps.old steps.new }
{
    settle_heaps(classes, ranked, steps);
    settle_statics(classes, ranked);
}
