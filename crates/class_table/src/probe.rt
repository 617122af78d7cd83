//! The special names, each looked for once along a linearisation, and what they give in the slots.

ghost use Rattle.class_table.specs.Below.{ℕ, [], true, length, Some, slice_get, slice_index_or, is_same_name, value_of, names_of, class_at, own_of, along, or_else, is_ascending};
ghost use Rattle.std.specs.Prelude.{◌≡◌, ◌<◌, ◌≤◌, ◌*◌, ◌-◌, ◌⊎◌, ◌∷◌};
ghost use Rattle.class_table.specs.Keys.{numbers};
ghost use Rattle.class_table.specs.Stored.{StoredClass, classes_of};
ghost use Rattle.class_table.specs.Coherent.{HasLines};
ghost use Rattle.class_table.specs.Probe.{special_count, is_called, value_at, slot_by, AreAdded, AreFound};
ghost use Rattle.class_table.specs.Steps.{RiseBy};

use crate::entries::wrapper;
use crate::place::{find_near, likely};
use crate::steps::Steps;
use crate::stored_classes::StoredClasses;
use py_node::{Known, PyAttributes, PyObjectRef, PyStrInterned, PyTypeRef, SlotEntry, SlotId};
use std::sync::ledger::Ledger;

// How many special names there are: they are the first names.
const SPECIAL_NAMES: usize = 70;

// The number of `__new__`.
const NEW: usize = Known::New as usize;

/// What each special name finds for a class, by the name's number.
pub(crate) type Values = [Option<PyObjectRef>; SPECIAL_NAMES];

// The class's own value of a name, where there is such a class. This alone counts a probe.
fn own_value<L: Ledger>(
    classes: &StoredClasses,
    near: usize,
    class: PyTypeRef,
    name: PyStrInterned,
    steps: &mut Steps<L>,
) -> Option<PyObjectRef>
    requires { is_ascending (classes_of classes.now) ≡ true }
    ensures value { result ≡ own_of (λ k. is_same_name k name) (class_at (classes_of classes.now) class.0) }
    ensures steps { RiseBy 0 1 steps.old steps.new }
{
    steps.probe();
    match find_near(classes, near, class) {
        None => None,
        Some(stored) => stored.own(name),
    }
}

// Notes a value for a name, where it is a special name for which nothing was found yet.
fn note(values: &mut [Option<PyObjectRef>], name: PyStrInterned, value: PyObjectRef)
    requires count { length values.old ≡ special_count }
    ensures { AreAdded (λ n. value_of (is_called n) ((name, value) ∷ [])) values.old values.new }
{
    let place = name.0 as usize;
    if place < values.len() && values[place].is_none() {
        values[place] = Some(value);
    }
}

// What attributes have under special names for which nothing was found yet: each attribute is looked at.
fn note_all<L: Ledger>(
    values: &mut [Option<PyObjectRef>],
    attrs: &PyAttributes,
    steps: &mut Steps<L>,
)
    requires count { length values.old ≡ special_count }
    ensures added { AreAdded (λ n. value_of (is_called n) attrs.now) values.old values.new }
    ensures steps { RiseBy 0 (length attrs.now) steps.old steps.new }
{
    for i in 0..attrs.len() {
        let (name, value) = attrs.at(i);
        steps.probe();
        note(values, name, value);
    }
}

// What attributes have under a special name, where nothing was found for it yet.
fn ask(values: &mut [Option<PyObjectRef>], attrs: &PyAttributes, number: usize)
    requires count { length values.old ≡ special_count }
    requires inside { number < special_count }
    ensures count { length values.new ≡ special_count }
    ensures asked { slice_get values.new number ≡
        Some (or_else (value_at values.old number) (value_of (is_called number) attrs.now)) }
    ensures others { (n : ℕ) → (n ≡ number → ⊥) → slice_get values.new n ≡ slice_get values.old n }
{
    if values[number].is_none() {
        values[number] = attrs.get(PyStrInterned(number as u64));
    }
}

// The same under the special names from one to before another: each is asked for.
fn ask_some<L: Ledger>(
    values: &mut [Option<PyObjectRef>],
    attrs: &PyAttributes,
    from: usize,
    to: usize,
    steps: &mut Steps<L>,
)
    requires count { length values.old ≡ special_count }
    requires inside { (from ≤ to) × (to ≤ special_count) }
    ensures count { length values.new ≡ special_count }
    ensures asked { (n : ℕ) → from ≤ n → n < to → slice_get values.new n ≡
        Some (or_else (value_at values.old n) (value_of (is_called n) attrs.now)) }
    ensures others { (n : ℕ) → (n < from) ⊎ (to ≤ n) → slice_get values.new n ≡ slice_get values.old n }
    ensures steps { RiseBy 0 (to - from) steps.old steps.new }
{
    for number in from..to {
        steps.probe();
        ask(values, attrs, number);
    }
}

// What attributes have under special names for which nothing was found yet, but for `__new__`: fewer than these names are
// looked at, of more the names are asked for.
fn add_own<L: Ledger>(
    values: &mut [Option<PyObjectRef>],
    attrs: &PyAttributes,
    steps: &mut Steps<L>,
)
    requires count { length values.old ≡ special_count }
    ensures added { AreAdded (λ n. value_of (is_called n) attrs.now) values.old values.new }
    ensures steps { RiseBy 0 69 steps.old steps.new }
{
    if attrs.len() < SPECIAL_NAMES {
        note_all(values, attrs, steps);
    } else {
        ask_some(values, attrs, 0, NEW, steps);
        ask_some(values, attrs, NEW + 1, SPECIAL_NAMES, steps);
    }
}

// The same of a class, where there is such a class.
fn add_of<L: Ledger>(
    values: &mut [Option<PyObjectRef>],
    classes: &StoredClasses,
    near: usize,
    class: PyTypeRef,
    steps: &mut Steps<L>,
)
    requires ascending { is_ascending (classes_of classes.now) ≡ true }
    requires count { length values.old ≡ special_count }
    ensures added { AreAdded (λ n. own_of (is_called n) (class_at (classes_of classes.now) class.0))
        values.old values.new }
    ensures steps { RiseBy 0 69 steps.old steps.new }
{
    match find_near(classes, near, class) {
        None => {}
        Some(stored) => add_own(values, stored.attributes(), steps),
    }
}

// The same of some classes: of each name what the first has that has it.
fn add_along<L: Ledger>(
    values: &mut [Option<PyObjectRef>],
    classes: &StoredClasses,
    near: &[usize],
    line: &[PyTypeRef],
    steps: &mut Steps<L>,
)
    requires ascending { is_ascending (classes_of classes.now) ≡ true }
    requires count { length values.old ≡ special_count }
    ensures added { AreAdded (λ n. along (is_called n) (classes_of classes.now) (numbers line.now))
        values.old values.new }
    ensures steps { RiseBy 0 (69 * length line.now) steps.old steps.new }
{
    for (place, class) in line.iter().enumerate() {
        add_of(values, classes, likely(near, place), *class, steps);
    }
}

// What each special name finds for the class at a place: `__new__` in the class alone, another one along its linearisation.
pub(crate) fn values_for<L: Ledger>(
    classes: &StoredClasses,
    at: usize,
    steps: &mut Steps<L>,
) -> Values
    requires lines { HasLines classes.now }
    requires inside { at < length classes.now }
    ensures found { (d : StoredClass) → AreFound (classes_of classes.now)
        (slice_index_or classes.now at d).number (slice_index_or classes.now at d).mro result }
    ensures steps { (d : StoredClass) →
        RiseBy 0 (special_count * length (slice_index_or classes.now at d).mro) steps.old steps.new }
{
    let stored = classes.at(at);
    let mut values = [None; SPECIAL_NAMES];
    add_along(&mut values, classes, stored.near(), stored.mro(), steps);
    let name = Known::New.interned();
    values[NEW] = own_value(classes, at, stored.number(), name, steps);
    values
}

// What was found for a name, by its number.
fn value_at(values: &[Option<PyObjectRef>], number: u64) -> Option<PyObjectRef>
    ensures { result ≡ value_at values.now number }
{
    match values.get(number as usize) {
        None => None,
        Some(value) => *value,
    }
}

// What the special names give in a slot: the first of the slot's own for which something was found.
pub(crate) fn slot_by(values: &[Option<PyObjectRef>], slot: SlotId) -> Option<SlotEntry>
    ensures { result ≡ slot_by values.now slot (names_of slot) }
{
    for name in slot.special_names() {
        match value_at(values, name.number()) {
            None => {}
            Some(value) => return Some(wrapper(slot, value)),
        }
    }
    None
}
