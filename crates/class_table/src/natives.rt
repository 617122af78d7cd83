//! What stands in the slots of the built-in classes: their own attributes say it.

ghost use Rattle.std.specs.Prelude.{◌≡◌};
ghost use Rattle.class_table.specs.Below.{names_of, filling_of, is_among, is_number, is_sequence, fills, new_native, compare_native, entry_of, entry_among, natives_of};

use py_node::attr::OwnAttr;
use py_node::built_in::BUILT_IN_COUNT;
use py_node::own_attrs::attrs_of;
use py_node::{
    Attr, BuiltIn, CompareNative, Filling, Known, NativeEntry, ObjectNative, PyTypeRef, SlotEntry,
    SlotId, TypeNative,
};

// Whether a name is a special name of a slot.
fn is_special(slot: SlotId, name: Known) -> bool
    ensures { result ≡ is_among name (names_of slot) }
{
    slot.special_names().iter().any(|special| name == *special)
}

// Whether a class's objects are whole numbers.
fn is_number(class: BuiltIn) -> bool
    ensures { result ≡ is_number class }
{
    class == BuiltIn::Int || class == BuiltIn::Bool
}

// Whether a class's objects are concatenated and repeated.
fn is_sequence(class: BuiltIn) -> bool
    ensures { result ≡ is_sequence class }
{
    class == BuiltIn::Str || class == BuiltIn::Tuple || class == BuiltIn::List
}

// Whether an own attribute of that name fills the slot of a class.
fn fills(class: BuiltIn, slot: SlotId, filling: Filling, name: Known) -> bool
    ensures { result ≡ fills class slot filling name }
{
    match filling {
        Filling::BySpecial => is_special(slot, name),
        Filling::NotDict => class != BuiltIn::Dict && is_special(slot, name),
        Filling::Number(method) => is_number(class) && name == method,
        Filling::Sequence(method) => is_sequence(class) && name == method,
    }
}

// What makes the objects of a class.
fn new_native(class: BuiltIn) -> NativeEntry
    ensures { result ≡ new_native class }
{
    match class {
        BuiltIn::Object => NativeEntry::OfObject(ObjectNative::New),
        BuiltIn::TypeType => NativeEntry::OfType(TypeNative::New),
        _ => NativeEntry::NewOf(class),
    }
}

// All six comparisons of a class, as one.
fn compare_native(class: BuiltIn) -> NativeEntry
    ensures { result ≡ compare_native class }
{
    match class {
        BuiltIn::Object => NativeEntry::OfObject(ObjectNative::Compare),
        _ => NativeEntry::Compare(class, CompareNative::All),
    }
}

// What an own attribute of a class is in a slot that it fills.
fn entry_of(class: BuiltIn, slot: SlotId, attr: Attr) -> Option<SlotEntry>
    ensures { result ≡ entry_of class slot attr }
{
    match attr {
        Attr::New => Some(SlotEntry::Native(new_native(class))),
        Attr::Method(_) if slot == SlotId::Richcompare => {
            Some(SlotEntry::Native(compare_native(class)))
        }
        Attr::Method(native) => Some(SlotEntry::Native(native)),
        Attr::NoHash => Some(SlotEntry::Unhashable),
        _ => None,
    }
}

// What a class has in a slot by some of its attributes: the first that fills the slot says it.
fn entry_among(class: BuiltIn, slot: SlotId, attrs: &[OwnAttr]) -> Option<SlotEntry>
    ensures { result ≡ entry_among class slot attrs.now }
{
    let filling = slot.filling();
    for attr in attrs {
        if fills(class, slot, filling, attr.0) {
            return entry_of(class, slot, attr.1);
        }
    }
    None
}

/// What stands in a slot of a built-in class, by the number of the class.
#[tactic(auto, unfolding(class_model::specs::BuiltIn::natives_of))]
pub fn built_in_entry(class: PyTypeRef, slot: SlotId) -> Option<SlotEntry>
    ensures { result ≡ natives_of class.0 slot }
{
    if class.0 >= BUILT_IN_COUNT {
        return None;
    }
    let class = BuiltIn::at(class.0 as usize);
    entry_among(class, slot, attrs_of(class))
}
