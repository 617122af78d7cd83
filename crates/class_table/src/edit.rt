//! One class of those that are kept is changed, but for its linearisation.

ghost use Rattle.class_table.specs.Below.{[], ℕ, List, length, OnErr, OnOk, is_some, slice_index_or, slice_set, string_bytes, value_of, with_value, without_key, is_same_name, place_of};
ghost use Rattle.std.specs.Prelude.{◌≡◌, ◌<◌, ◌++◌, ◌∷◌};
ghost use Rattle.class_table.specs.Keys.{numbers};
ghost use Rattle.class_table.specs.Renewed.{renewed_but_line};
ghost use Rattle.class_table.specs.Stored.{StoredClass, classes_of};

use crate::renew::Renewed;
use crate::stored::Stored;
use py_node::{OutOfMemory, PyObjectRef, PyStrInterned, PyTypeRef, SlotEntry, SlotId};

// Fills or empties a slot.
pub(crate) fn set_slot(classes: &mut Vec<Stored>, at: usize, slot: SlotId, entry: Option<SlotEntry>)
    requires { at < length classes.old.items }
    ensures { (d : StoredClass) → classes.new.items ≡
        slice_set classes.old.items at (record (slice_index_or classes.old.items at d) {
          slots = slice_set (slice_index_or classes.old.items at d).slots (place_of slot) entry;
        }) }
{
    classes[at].set_slot(slot, entry);
}

// Notes a direct subclass.
pub(crate) fn add_subclass(
    classes: &mut Vec<Stored>,
    at: usize,
    class: PyTypeRef,
) -> Result<(), OutOfMemory>
    requires { at < length classes.old.items }
    ensures ok { OnOk result ((d : StoredClass) → classes.new.items ≡
        slice_set classes.old.items at (record (slice_index_or classes.old.items at d) {
          subclasses = (slice_index_or classes.old.items at d).subclasses ++ class.0 ∷ [];
        })) }
    ensures err { OnErr result (classes.new.items ≡ classes.old.items) }
{
    classes[at].add_subclass(class)
}

// Takes the last direct subclass off.
pub(crate) fn forget_subclass(classes: &mut Vec<Stored>, at: usize)
    requires { at < length classes.old.items }
    ensures plain { classes_of classes.new.items ≡ classes_of classes.old.items }
    ensures back { (d : StoredClass) (class : ℕ) (subclasses : List ℕ) →
        (slice_index_or classes.old.items at d).subclasses ≡ subclasses ++ class ∷ [] → classes.new.items ≡
        slice_set classes.old.items at (record (slice_index_or classes.old.items at d) { subclasses = subclasses }) }
{
    classes[at].forget_subclass();
}

// Gives a class other bases.
pub(crate) fn set_bases(classes: &mut Vec<Stored>, at: usize, bases: Vec<PyTypeRef>)
    requires { at < length classes.old.items }
    ensures { (d : StoredClass) → classes.new.items ≡
        slice_set classes.old.items at (record (slice_index_or classes.old.items at d) { bases = numbers bases.items }) }
{
    classes[at].set_bases(bases);
}

// Gives a class what follows from other bases, but for its linearisation and its slots.
pub(crate) fn renew(classes: &mut Vec<Stored>, at: usize, renewed: &mut Renewed)
    requires { at < length classes.old.items }
    ensures { (d : StoredClass) → classes.new.items ≡
        slice_set classes.old.items at (renewed_but_line renewed.old (slice_index_or classes.old.items at d)) }
{
    classes[at].renew(renewed);
}

// Gives a class another name.
pub(crate) fn set_name(classes: &mut Vec<Stored>, at: usize, name: String)
    requires { at < length classes.old.items }
    ensures { (d : StoredClass) → classes.new.items ≡
        slice_set classes.old.items at (record (slice_index_or classes.old.items at d) { name = string_bytes name }) }
{
    classes[at].set_name(name);
}

// Gives an own attribute a value.
pub(crate) fn set_attr(
    classes: &mut Vec<Stored>,
    at: usize,
    name: PyStrInterned,
    value: PyObjectRef,
) -> Result<(), OutOfMemory>
    requires { at < length classes.old.items }
    ensures ok { OnOk result ((d : StoredClass) → classes.new.items ≡
        slice_set classes.old.items at (record (slice_index_or classes.old.items at d) {
          attrs = with_value is_same_name (slice_index_or classes.old.items at d).attrs name value;
        })) }
    ensures err { OnErr result (classes.new.items ≡ classes.old.items) }
{
    classes[at].set_attr(name, value)
}

// Takes an own attribute out, if it is there.
pub(crate) fn remove_attr(classes: &mut Vec<Stored>, at: usize, name: PyStrInterned) -> bool
    requires { at < length classes.old.items }
    ensures there { (d : StoredClass) → result ≡
        is_some (value_of (λ k. is_same_name k name) (slice_index_or classes.old.items at d).attrs) }
    ensures left { (d : StoredClass) → classes.new.items ≡
        slice_set classes.old.items at (record (slice_index_or classes.old.items at d) {
          attrs = without_key is_same_name (slice_index_or classes.old.items at d).attrs name;
        }) }
{
    classes[at].remove_attr(name)
}
