//! What a class has in the slots of sequences and of mappings, and in all of its slots.

ghost use Rattle.vm_calls.specs.Below.{[], None, SlotId as Slot};
ghost use Rattle.std.specs.Prelude.{◌≡◌};
ghost use Rattle.vm_calls.specs.SlotTables.Tables.{sequence_entry, mapping_entry, table_entry, type_entry};

use crate::slot_tables::number::PyNumberSlots;
use py_node::{PyTypeFlags, SlotEntry, SlotId};

/// What a class has in the slots of sequences.
#[derive(Clone, Copy)]
pub struct PySequenceMethods {
    pub length: Option<SlotEntry>,
    pub item: Option<SlotEntry>,
    pub ass_item: Option<SlotEntry>,
    pub contains: Option<SlotEntry>,
    pub concat: Option<SlotEntry>,
    pub repeat: Option<SlotEntry>,
    pub inplace_concat: Option<SlotEntry>,
    pub inplace_repeat: Option<SlotEntry>,
}

/// What a class has in the slots of mappings.
#[derive(Clone, Copy)]
pub struct PyMappingMethods {
    pub length: Option<SlotEntry>,
    pub subscript: Option<SlotEntry>,
    pub ass_subscript: Option<SlotEntry>,
}

/// What a class has in its slots, with its name, its flags and how many members it adds.
#[derive(Clone, Copy)]
pub struct PyTypeSlots {
    pub name: &'static str,
    pub flags: PyTypeFlags,
    pub member_count: usize,
    pub as_number: PyNumberSlots,
    pub as_sequence: PySequenceMethods,
    pub as_mapping: PyMappingMethods,
    pub hash: Option<SlotEntry>,
    pub call: Option<SlotEntry>,
    pub repr: Option<SlotEntry>,
    pub getattro: Option<SlotEntry>,
    pub setattro: Option<SlotEntry>,
    pub richcompare: Option<SlotEntry>,
    pub iter: Option<SlotEntry>,
    pub iternext: Option<SlotEntry>,
    pub descr_get: Option<SlotEntry>,
    pub descr_set: Option<SlotEntry>,
    pub init: Option<SlotEntry>,
    pub new: Option<SlotEntry>,
    pub del: Option<SlotEntry>,
}

/// The `hash` entry of a class whose objects have no hash.
pub fn hash_not_implemented() -> SlotEntry
    ensures { result ≡ SlotEntry.Unhashable }
{
    SlotEntry::Unhashable
}

/// What a class that a script makes keeps of its own: its name, and the names that its `__slots__` give, if it has any.
#[derive(Drop)]
pub struct HeapTypeExt {
    pub name: String,
    pub slots: Option<Vec<String>>,
}

impl PySequenceMethods {
    /// None of the methods.
    pub const NOT_IMPLEMENTED: PySequenceMethods = PySequenceMethods {
        length: None,
        item: None,
        ass_item: None,
        contains: None,
        concat: None,
        repeat: None,
        inplace_concat: None,
        inplace_repeat: None,
    };

    /// What the table has in a slot. It has nothing in those that aren't of sequences.
    #[tactic(auto, unfolding(crate::specs::SlotTables::Tables::sequence_entry))]
    pub fn entry(&self, slot: SlotId) -> Option<SlotEntry>
        ensures { result ≡ sequence_entry self.now slot }
    {
        match slot {
            SlotId::SeqLength => self.length,
            SlotId::SeqItem => self.item,
            SlotId::SeqAssItem => self.ass_item,
            SlotId::SeqContains => self.contains,
            SlotId::Concat => self.concat,
            SlotId::Repeat => self.repeat,
            SlotId::InplaceConcat => self.inplace_concat,
            SlotId::InplaceRepeat => self.inplace_repeat,
            _ => None,
        }
    }
}

impl Default for PySequenceMethods {
    #[tactic(auto, using(crate::proofs::SlotTables::Filled::no_sequence))]
    fn default() -> PySequenceMethods
        ensures { (s : Slot) → sequence_entry result s ≡ None }
    {
        PySequenceMethods::NOT_IMPLEMENTED
    }
}

impl PyMappingMethods {
    /// None of the methods.
    pub const NOT_IMPLEMENTED: PyMappingMethods = PyMappingMethods {
        length: None,
        subscript: None,
        ass_subscript: None,
    };

    /// What the table has in a slot. It has nothing in those that aren't of mappings.
    #[tactic(auto, unfolding(crate::specs::SlotTables::Tables::mapping_entry))]
    pub fn entry(&self, slot: SlotId) -> Option<SlotEntry>
        ensures { result ≡ mapping_entry self.now slot }
    {
        match slot {
            SlotId::MapLength => self.length,
            SlotId::MapSubscript => self.subscript,
            SlotId::MapAssSubscript => self.ass_subscript,
            _ => None,
        }
    }
}

impl Default for PyMappingMethods {
    #[tactic(auto, using(crate::proofs::SlotTables::Filled::no_mapping))]
    fn default() -> PyMappingMethods
        ensures { (s : Slot) → mapping_entry result s ≡ None }
    {
        PyMappingMethods::NOT_IMPLEMENTED
    }
}

impl PyTypeSlots {
    /// The slots of a class with a name and flags, of which none is filled.
    pub fn new(name: &'static str, flags: PyTypeFlags) -> PyTypeSlots
        ensures name { result.name.now ≡ name.now }
        ensures flags { result.flags ≡ flags }
        ensures members { result.member_count ≡ 0 }
        ensures empty { (s : Slot) → type_entry result s ≡ None }
    {
        PyTypeSlots {
            name,
            flags,
            member_count: 0,
            as_number: PyNumberSlots::default(),
            as_sequence: PySequenceMethods::NOT_IMPLEMENTED,
            as_mapping: PyMappingMethods::NOT_IMPLEMENTED,
            hash: None,
            call: None,
            repr: None,
            getattro: None,
            setattro: None,
            richcompare: None,
            iter: None,
            iternext: None,
            descr_get: None,
            descr_set: None,
            init: None,
            new: None,
            del: None,
        }
    }

    /// The slots of a class that a script makes, before any is filled.
    pub fn heap_default() -> PyTypeSlots
        ensures name { result.name.now ≡ [] }
        ensures flags { result.flags.0 ≡ 0 }
        ensures members { result.member_count ≡ 0 }
        ensures empty { (s : Slot) → type_entry result s ≡ None }
    {
        PyTypeSlots::new("", PyTypeFlags::DEFAULT)
    }

    /// What the class has in a slot.
    #[tactic(auto, unfolding(crate::specs::SlotTables::Tables::type_entry))]
    pub fn entry(&self, slot: SlotId) -> Option<SlotEntry>
        ensures { result ≡ type_entry self.now slot }
    {
        match slot {
            SlotId::Hash => self.hash,
            SlotId::Call => self.call,
            SlotId::Repr => self.repr,
            SlotId::Getattro => self.getattro,
            SlotId::Setattro => self.setattro,
            SlotId::Richcompare => self.richcompare,
            SlotId::Iter => self.iter,
            SlotId::Iternext => self.iternext,
            SlotId::DescrGet => self.descr_get,
            SlotId::DescrSet => self.descr_set,
            SlotId::Init => self.init,
            SlotId::New => self.new,
            SlotId::Del => self.del,
            _ => self.entry_in_tables(slot),
        }
    }

    // What the class has in a slot of a table.
    fn entry_in_tables(&self, slot: SlotId) -> Option<SlotEntry>
        ensures { result ≡ table_entry self.now slot }
    {
        let other = self.as_sequence.entry(slot).or(self.as_mapping.entry(slot));
        self.as_number.entry(slot).or(other)
    }
}

impl Default for PyTypeSlots {
    fn default() -> PyTypeSlots
        ensures name { result.name.now ≡ [] }
        ensures flags { result.flags.0 ≡ 0 }
        ensures members { result.member_count ≡ 0 }
        ensures empty { (s : Slot) → type_entry result s ≡ None }
    {
        PyTypeSlots::heap_default()
    }
}
