//! All classes that the table keeps, with their linearisations.

ghost use Rattle.class_table.specs.Below.{[], ℕ, List, true, length, IfErr, IfNone, IfSome, None, OnErr, OnOk, Some, is_some, slice_index_or, slice_set, string_bytes, value_of, with_value, without_key, is_same_name, place_of, class_at, is_ascending};
ghost use Rattle.std.specs.Prelude.{◌≡◌, ◌==◌, ◌<◌, ◌++◌, ◌∷◌};
ghost use Rattle.class_table.specs.Keys.{numbers};
ghost use Rattle.class_table.specs.Lines.{with_lines};
ghost use Rattle.class_table.specs.Renewed.{renewed_but_line};
ghost use Rattle.class_table.specs.Stored.{StoredClass, number_at, classes_of};

use crate::edit;
use crate::lines::Lines;
use crate::renew::Renewed;
use crate::stored::Stored;
use crate::stored_ref::StoredRef;
use py_node::{OutOfMemory, PyObjectRef, PyStrInterned, PyTypeRef, SlotEntry, SlotId};
use std::alloc::Global;
use std::marker::Model;

/// The classes, in the order of their numbers. Their linearisations stand in one array.
#[derive(Drop)]
pub(crate) struct StoredClasses {
    classes: Vec<Stored>,
    lines: Lines,
}

impl Model for StoredClasses {
    ghost use Rattle.std.specs.Prelude.{◌≡◌, List, length};
    ghost use Rattle.class_table.specs.Lines.{with_lines};
    ghost use Rattle.class_table.specs.Stored.{StoredClass};

    ghost Value = { List StoredClass };

    ghost view = { λ a. with_lines a.classes.items a.lines };

    ghost invariant = { λ a. length a.lines ≡ length a.classes.items };
}

/// A class that is to be kept, with its linearisation.
#[derive(Drop)]
pub(crate) struct Unplaced {
    pub(crate) stored: Stored,
    pub(crate) line: Vec<PyTypeRef>,
    // Where each class of the linearisation is likely kept.
    pub(crate) near: Vec<usize>,
}

impl Model for Unplaced {
    ghost use Rattle.class_table.specs.Keys.{numbers};
    ghost use Rattle.class_table.specs.Lines.{with_line};
    ghost use Rattle.class_table.specs.Stored.{StoredClass};

    ghost Value = { StoredClass };

    ghost view = { λ a. with_line a.stored (numbers a.line.items) };
}

impl Unplaced {
    // The class's number.
    pub(crate) fn number(&self) -> PyTypeRef
        ensures { result.0 ≡ self.now.number }
    {
        self.stored.number
    }

    // The class's direct bases, in order.
    pub(crate) fn bases(&self) -> &[PyTypeRef]
        ensures { numbers result.now ≡ self.now.bases }
    {
        &self.stored.bases
    }
}

impl StoredClasses {
    // No classes.
    pub(crate) fn new(alloc: Global) -> StoredClasses
        ensures { result ≡ [] }
    {
        StoredClasses {
            classes: Vec::new(alloc),
            lines: Lines::new(alloc),
        }
    }

    // How many classes there are.
    pub(crate) fn len(&self) -> usize
        ensures { result ≡ length self.now }
    {
        self.classes.len()
    }

    // Whether there is none.
    pub(crate) fn is_empty(&self) -> bool
        ensures { result ≡ (length self.now == 0) }
    {
        self.classes.is_empty()
    }

    // The class at a place.
    pub(crate) fn at(&self, place: usize) -> StoredRef<'_>
        requires { place < length self.now }
        ensures { result ≡ slice_index_or self.now place result }
    {
        StoredRef {
            stored: &self.classes[place],
            lines: &self.lines,
            place,
        }
    }

    // The place of a class by its number, by halves.
    pub(crate) fn search(&self, class: PyTypeRef) -> Option<usize>
        requires { is_ascending (classes_of self.now) ≡ true }
        ensures place { IfSome result (λ i. number_at self.now i ≡ Some class.0) }
        ensures none { IfNone result (class_at (classes_of self.now) class.0 ≡ None) }
    {
        match self
            .classes
            .binary_search_by_key(&class.0, |stored| stored.number.0)
        {
            Ok(place) => Some(place),
            Err(_) => None,
        }
    }

    // Puts a class at the end. Where memory runs out it is given back.
    pub(crate) fn push(&mut self, new: Unplaced) -> Result<(), Unplaced>
        ensures ok { OnOk result (self.new ≡ self.old ++ new ∷ []) }
        ensures err { OnErr result (self.new ≡ self.old) }
        ensures back { IfErr result (λ k. k ≡ new) }
    {
        if self.classes.reserve(1).is_err() {
            return Err(new);
        }
        match self.lines.add(&new.line, &new.near) {
            Ok(()) => {
                self.classes.push_reserved(new.stored);
                Ok(())
            }
            Err(_) => Err(new),
        }
    }

    // Gives all classes their linearisations anew.
    pub(crate) fn reline(&mut self, lines: Lines)
        requires { length lines ≡ length self.old }
        ensures { self.new ≡ with_lines self.old lines }
    {
        self.lines = lines;
    }

    // Fills or empties a slot of the class at a place.
    pub(crate) fn set_slot(&mut self, at: usize, slot: SlotId, entry: Option<SlotEntry>)
        requires { at < length self.old }
        ensures { (d : StoredClass) → self.new ≡ slice_set self.old at (record (slice_index_or self.old at d) {
          slots = slice_set (slice_index_or self.old at d).slots (place_of slot) entry;
        }) }
    {
        edit::set_slot(&mut self.classes, at, slot, entry);
    }

    // Notes a direct subclass of the class at a place.
    pub(crate) fn add_subclass(&mut self, at: usize, class: PyTypeRef) -> Result<(), OutOfMemory>
        requires { at < length self.old }
        ensures ok { OnOk result ((d : StoredClass) → self.new ≡
            slice_set self.old at (record (slice_index_or self.old at d) {
              subclasses = (slice_index_or self.old at d).subclasses ++ class.0 ∷ [];
            })) }
        ensures err { OnErr result (self.new ≡ self.old) }
    {
        edit::add_subclass(&mut self.classes, at, class)
    }

    // Takes the last direct subclass of the class at a place off.
    pub(crate) fn forget_subclass(&mut self, at: usize)
        requires { at < length self.old }
        ensures plain { classes_of self.new ≡ classes_of self.old }
        ensures back { (d : StoredClass) (class : ℕ) (subclasses : List ℕ) →
            (slice_index_or self.old at d).subclasses ≡ subclasses ++ class ∷ [] → self.new ≡
            slice_set self.old at (record (slice_index_or self.old at d) { subclasses = subclasses }) }
    {
        edit::forget_subclass(&mut self.classes, at);
    }

    // Gives the class at a place other bases, and leaves what follows from them.
    pub(crate) fn set_bases(&mut self, at: usize, bases: Vec<PyTypeRef>)
        requires { at < length self.old }
        ensures { (d : StoredClass) → self.new ≡
            slice_set self.old at (record (slice_index_or self.old at d) { bases = numbers bases.items }) }
    {
        edit::set_bases(&mut self.classes, at, bases);
    }

    // Gives the class at a place what follows from other bases, but for its linearisation and its slots.
    pub(crate) fn renew(&mut self, at: usize, renewed: &mut Renewed)
        requires { at < length self.old }
        ensures { (d : StoredClass) → self.new ≡
            slice_set self.old at (renewed_but_line renewed.old (slice_index_or self.old at d)) }
    {
        edit::renew(&mut self.classes, at, renewed);
    }

    // Gives the class at a place another name.
    pub(crate) fn set_name(&mut self, at: usize, name: String)
        requires { at < length self.old }
        ensures { (d : StoredClass) → self.new ≡
            slice_set self.old at (record (slice_index_or self.old at d) { name = string_bytes name }) }
    {
        edit::set_name(&mut self.classes, at, name);
    }

    // Gives an own attribute of the class at a place a value.
    pub(crate) fn set_attr(
        &mut self,
        at: usize,
        name: PyStrInterned,
        value: PyObjectRef,
    ) -> Result<(), OutOfMemory>
        requires { at < length self.old }
        ensures ok { OnOk result ((d : StoredClass) → self.new ≡
            slice_set self.old at (record (slice_index_or self.old at d) {
              attrs = with_value is_same_name (slice_index_or self.old at d).attrs name value;
            })) }
        ensures err { OnErr result (self.new ≡ self.old) }
    {
        edit::set_attr(&mut self.classes, at, name, value)
    }

    // Takes an own attribute of the class at a place out, if it is there.
    pub(crate) fn remove_attr(&mut self, at: usize, name: PyStrInterned) -> bool
        requires { at < length self.old }
        ensures there { (d : StoredClass) → result ≡
            is_some (value_of (λ k. is_same_name k name) (slice_index_or self.old at d).attrs) }
        ensures left { (d : StoredClass) → self.new ≡ slice_set self.old at (record (slice_index_or self.old at d) {
          attrs = without_key is_same_name (slice_index_or self.old at d).attrs name;
        }) }
    {
        edit::remove_attr(&mut self.classes, at, name)
    }
}
