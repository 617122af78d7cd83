//! What the table keeps of a class.

ghost use Rattle.class_table.specs.Below.{ℕ, List, [], OnOk, OnErr, is_some, slice_set, string_bytes, value_of, with_value, without_key, is_same_name, place_of, has};
ghost use Rattle.std.specs.Prelude.{◌≡◌, ◌++◌, ◌∷◌};
ghost use Rattle.class_table.specs.Stored.{class_of};
ghost use Rattle.class_table.specs.Keys.{numbers};
ghost use Rattle.class_table.specs.Renewed.{renewed_but_line};

use crate::renew::Renewed;
use py_node::{
    OutOfMemory, PyAttributes, PyObjectRef, PyStrInterned, PyTypeFlags, PyTypeRef, SlotEntry,
    SlotId,
};
use std::marker::Model;
use std::mem::swap;

/// How many slots a class has.
pub(crate) const SLOTS: usize = 73;

// What stands in a slot is small.
const _: () = prove!(size_of::<Option<SlotEntry>>() <= 8);

// A class that is to be made.
#[derive(Drop)]
pub(crate) struct NewClass {
    pub(crate) name: String,
    pub(crate) number: PyTypeRef,
    pub(crate) bases: Vec<PyTypeRef>,
    pub(crate) attrs: PyAttributes,
    pub(crate) members: Vec<PyStrInterned>,
    pub(crate) flags: PyTypeFlags,
    // Whether the class brings its objects a dict itself.
    pub(crate) brings: bool,
}

/// A class, and what is kept of it but for its linearisation, which stands among those of all classes.
#[derive(Drop)]
pub(crate) struct Stored {
    pub(crate) name: String,
    pub(crate) number: PyTypeRef,
    pub(crate) bases: Vec<PyTypeRef>,
    pub(crate) attrs: PyAttributes,
    pub(crate) members: Vec<PyStrInterned>,
    pub(crate) flags: PyTypeFlags,
    // Whether the class brings its objects a dict itself.
    pub(crate) brings: bool,
    // In the slots' order.
    pub(crate) slots: [Option<SlotEntry>; SLOTS],
    pub(crate) base: Option<PyTypeRef>,
    pub(crate) solid: Option<PyTypeRef>,
    pub(crate) subclasses: Vec<PyTypeRef>,
    // How many places the objects of the class have.
    pub(crate) places: usize,
}

impl Model for Stored {
    ghost use Rattle.std.specs.Prelude.{[], string_bytes};
    ghost use Rattle.class_table.specs.Keys.{numbers, number_of};
    ghost use Rattle.class_table.specs.Stored.{StoredClass};

    ghost Value = { StoredClass };

    ghost view = { λ a. record {
      name = string_bytes a.name;
      number = a.number.0;
      bases = numbers a.bases.items;
      attrs = a.attrs;
      members = a.members.items;
      flags = a.flags.0;
      brings = a.brings;
      mro = [];
      slots = a.slots;
      base = number_of a.base;
      solid = number_of a.solid;
      subclasses = numbers a.subclasses.items;
      places = a.places;
    } };
}

impl Stored {
    // Fills or empties a slot.
    pub(crate) fn set_slot(&mut self, slot: SlotId, entry: Option<SlotEntry>)
        ensures { self.new ≡ record self.old { slots = slice_set self.old.slots (place_of slot) entry } }
    {
        write(&mut self.slots, slot.place(), entry);
    }

    // Notes a direct subclass.
    pub(crate) fn add_subclass(&mut self, class: PyTypeRef) -> Result<(), OutOfMemory>
        ensures ok { OnOk result (self.new ≡ record self.old { subclasses = self.old.subclasses ++ class.0 ∷ [] }) }
        ensures err { OnErr result (self.new ≡ self.old) }
    {
        self.subclasses.push(class)?;
        Ok(())
    }

    // Takes the last direct subclass off.
    pub(crate) fn forget_subclass(&mut self)
        ensures plain { class_of self.new ≡ class_of self.old }
        ensures back { (class : ℕ) (subclasses : List ℕ) → self.old.subclasses ≡ subclasses ++ class ∷ [] → self.new ≡
            record self.old { subclasses = subclasses } }
    {
        self.subclasses.pop();
    }

    // Gives the class other bases, and leaves what follows from them.
    pub(crate) fn set_bases(&mut self, bases: Vec<PyTypeRef>)
        ensures { self.new ≡ record self.old { bases = numbers bases.items } }
    {
        self.bases = bases;
    }

    // Gives the class what follows from other bases, but for its linearisation and its slots, and takes back what it had.
    pub(crate) fn renew(&mut self, renewed: &mut Renewed)
        ensures { self.new ≡ renewed_but_line renewed.old self.old }
    {
        swap(&mut self.subclasses, &mut renewed.subclasses);
        self.base = renewed.base;
        self.places = renewed.places;
    }

    // Gives the class another name.
    pub(crate) fn set_name(&mut self, name: String)
        ensures { self.new ≡ record self.old { name = string_bytes name } }
    {
        self.name = name;
    }

    // Gives an own attribute a value.
    pub(crate) fn set_attr(
        &mut self,
        name: PyStrInterned,
        value: PyObjectRef,
    ) -> Result<(), OutOfMemory>
        ensures ok { OnOk result (self.new ≡
            record self.old { attrs = with_value is_same_name self.old.attrs name value }) }
        ensures err { OnErr result (self.new ≡ self.old) }
    {
        self.attrs.insert(name, value)
    }

    // Takes an own attribute out, if it is there.
    pub(crate) fn remove_attr(&mut self, name: PyStrInterned) -> bool
        ensures there { result ≡ is_some (value_of (λ k. is_same_name k name) self.old.attrs) }
        ensures left { self.new ≡ record self.old { attrs = without_key is_same_name self.old.attrs name } }
    {
        self.attrs.remove(name)
    }
}

// Whether a class is among some.
pub(crate) fn has(classes: &[PyTypeRef], class: PyTypeRef) -> bool
    ensures { result ≡ has (numbers classes.now) class.0 }
{
    for other in classes {
        if other.0 == class.0 {
            return true;
        }
    }
    false
}

// Writes an element, where there is such a place.
fn write(slots: &mut [Option<SlotEntry>], place: usize, entry: Option<SlotEntry>)
    ensures { slots.new ≡ slice_set slots.old place entry }
{
    if place < slots.len() {
        slots[place] = entry;
    }
}
