//! A class that is lent, with its linearisation.

ghost use Rattle.class_table.specs.Below.{Some, option_and_then, length, slice_get, value_of, is_same_name, place_of, has, is_heap, says_dict};
ghost use Rattle.std.specs.Prelude.{◌≡◌};
ghost use Rattle.class_table.specs.Keys.{numbers, number_of};
ghost use Rattle.class_table.specs.Stored.{class_of};

use crate::lines::Lines;
use crate::stored::{Stored, has};
use py_node::{
    PyAttributes, PyObjectRef, PyStrInterned, PyTypeFlags, PyTypeRef, SlotEntry, SlotId,
};
use std::marker::Model;

/// A class that is lent, with the place of its linearisation among those of all classes: it is read only where it is
/// asked for.
#[derive(Drop)]
pub(crate) struct StoredRef<'a> {
    pub(crate) stored: &'a Stored,
    pub(crate) lines: &'a Lines,
    pub(crate) place: usize,
}

impl<'a> Model for StoredRef<'a> {
    ghost use Rattle.std.specs.Prelude.{◌<◌, [], length, slice_index_or};
    ghost use Rattle.class_table.specs.Lines.{with_line};
    ghost use Rattle.class_table.specs.Stored.{StoredClass};

    ghost Value = { StoredClass };

    ghost view = { λ a. with_line a.stored.now (slice_index_or a.lines.now a.place []) };

    ghost invariant = { λ a. a.place < length a.lines.now };
}

impl<'a> StoredRef<'a> {
    // The class's own value of a name.
    pub(crate) fn own(&self, name: PyStrInterned) -> Option<PyObjectRef>
        ensures { result ≡ value_of (λ k. is_same_name k name) self.now.attrs }
    {
        let stored = self.stored;
        stored.attrs.get(name)
    }

    // Whether the class was made by a script.
    pub(crate) fn is_heap(&self) -> bool
        ensures { result ≡ is_heap (class_of self.now) }
    {
        let stored = self.stored;
        stored.flags.has_feature(PyTypeFlags::HEAPTYPE)
    }

    // Whether the class gives its objects a dict.
    pub(crate) fn has_dict(&self) -> bool
        ensures { result ≡ says_dict (Some (class_of self.now)) }
    {
        let stored = self.stored;
        stored.flags.has_feature(PyTypeFlags::HAS_DICT)
    }

    // Whether the class brings its objects a dict itself, whatever its bases do.
    pub(crate) fn brings(&self) -> bool
        ensures { result ≡ self.now.brings }
    {
        let stored = self.stored;
        stored.brings
    }

    // Whether the class has a class along its linearisation.
    pub(crate) fn derives(&self, class: PyTypeRef) -> bool
        ensures { result ≡ has self.now.mro class.0 }
    {
        has(self.mro(), class)
    }

    // The class's name.
    pub(crate) fn name(&self) -> &'a str
        ensures { result.now ≡ self.now.name }
    {
        let stored = self.stored;
        stored.name.as_str()
    }

    // The class's number.
    pub(crate) fn number(&self) -> PyTypeRef
        ensures { result.0 ≡ self.now.number }
    {
        let stored = self.stored;
        stored.number
    }

    // The class's flags.
    pub(crate) fn flags(&self) -> PyTypeFlags
        ensures { result.0 ≡ self.now.flags }
    {
        let stored = self.stored;
        stored.flags
    }

    // The class's own attributes.
    pub(crate) fn attributes(&self) -> &'a PyAttributes
        ensures { result.now ≡ self.now.attrs }
    {
        let stored = self.stored;
        &stored.attrs
    }

    // The class's linearisation.
    pub(crate) fn mro(&self) -> &'a [PyTypeRef]
        ensures { numbers result.now ≡ self.now.mro }
    {
        let lines = self.lines;
        lines.at(self.place)
    }

    // How many classes the linearisation has.
    pub(crate) fn line_length(&self) -> usize
        ensures { result ≡ length self.now.mro }
    {
        self.mro().len()
    }

    // The class's direct bases, in order.
    pub(crate) fn bases(&self) -> &'a [PyTypeRef]
        ensures { numbers result.now ≡ self.now.bases }
    {
        let stored = self.stored;
        &stored.bases
    }

    // Where each class of the linearisation is likely kept.
    pub(crate) fn near(&self) -> &'a [usize] {
        let lines = self.lines;
        lines.near(self.place)
    }

    // The class's nearest solid class, where it has one.
    pub(crate) fn solid(&self) -> Option<PyTypeRef>
        ensures { number_of result ≡ self.now.solid }
    {
        let stored = self.stored;
        stored.solid
    }

    // The class's best base, where it has one.
    pub(crate) fn base(&self) -> Option<PyTypeRef>
        ensures { number_of result ≡ self.now.base }
    {
        let stored = self.stored;
        stored.base
    }

    // The class's direct subclasses.
    pub(crate) fn subclasses(&self) -> &'a [PyTypeRef]
        ensures { numbers result.now ≡ self.now.subclasses }
    {
        let stored = self.stored;
        &stored.subclasses
    }

    // How many places the objects of the class have.
    pub(crate) fn places(&self) -> usize
        ensures { result ≡ self.now.places }
    {
        let stored = self.stored;
        stored.places
    }

    // How many members the class itself has.
    pub(crate) fn own_places(&self) -> usize
        ensures { result ≡ length self.now.members }
    {
        let stored = self.stored;
        stored.members.len()
    }

    // What the class itself has in a slot.
    pub(crate) fn entry(&self, slot: SlotId) -> Option<SlotEntry>
        ensures { result ≡ option_and_then (λ e. e) (slice_get self.now.slots (place_of slot)) }
    {
        let stored = self.stored;
        match stored.slots.get(slot.place()) {
            None => None,
            Some(entry) => *entry,
        }
    }
}
