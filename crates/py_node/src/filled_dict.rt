//! The keys of a dict that has had one, with their entries.

ghost use Rattle.py_node.specs.Below.{length, position, None, IfOk, IfSome, OnOk, OnErr};
ghost use Rattle.std.specs.Prelude.{◌≡◌, ◌<◌};
ghost use Rattle.py_node.specs.Dicts.{dict_pushed, dict_put, dict_removed, empty_dict, is_same_key};

use crate::dict::PyDictKey;
use crate::key_index::KeyIndex;
use crate::memory::OutOfMemory;
use crate::refs::PyObjectRef;
use std::alloc::Global;
use std::marker::Model;

/// Keys with their values, in the order in which the keys came. None stands twice. Each entry is the object that is the
/// key, and the value.
#[derive(Drop)]
pub(crate) struct FilledDict {
    index: KeyIndex,
    entries: Vec<(PyObjectRef, PyObjectRef)>,
}

impl Model for FilledDict {
    ghost use Rattle.std.specs.Prelude.{◌≡◌, length};
    ghost use Rattle.py_node.specs.Dicts.{PlainDict};

    ghost Value = { PlainDict };

    ghost view = { λ a. record { keys = a.index; items = a.entries.items } };

    ghost invariant = { λ a. length a.index ≡ length a.entries.items };
}

impl FilledDict {
    /// No keys yet.
    pub(crate) fn new(alloc: Global) -> FilledDict
        ensures { result ≡ empty_dict }
    {
        FilledDict {
            index: KeyIndex::new(alloc),
            entries: Vec::new(alloc),
        }
    }

    /// The object of each key with its value, in order.
    pub(crate) fn entries(&self) -> &[(PyObjectRef, PyObjectRef)]
        ensures entries { result.now ≡ self.now.items }
        ensures along { length self.now.keys ≡ length self.now.items }
    {
        &self.entries
    }

    /// The place of a key, if it is there.
    pub(crate) fn place_of(&self, key: PyDictKey) -> Option<usize>
        ensures first { result ≡ position (is_same_key key) self.now.keys }
        ensures below { IfSome result (λ n. n < length self.now.items) }
    {
        self.index.place_of(key)
    }

    /// Another value for the key at a place.
    pub(crate) fn put(&mut self, place: usize, value: PyObjectRef)
        requires { place < length self.old.items }
        ensures { self.new ≡ dict_put self.old place value }
    {
        self.entries[place] = (self.entries[place].0, value);
    }

    /// One more key, which goes last, with the object that is the key and its value. Where memory runs out, the dict is as it was.
    pub(crate) fn push(
        &mut self,
        alloc: Global,
        key: PyDictKey,
        object: PyObjectRef,
        value: PyObjectRef,
    ) -> Result<(), OutOfMemory>
        requires { position (is_same_key key) self.old.keys ≡ None }
        ensures ok { OnOk result (self.new ≡ dict_pushed self.old key object value) }
        ensures err { OnErr result (self.new ≡ self.old) }
    {
        self.entries.reserve(1)?;
        self.index.push(alloc, key)?;
        self.entries.push_reserved((object, value));
        Ok(())
    }

    /// Takes out the key at a place, with its value. The keys after it keep their order.
    pub(crate) fn remove(&mut self, place: usize)
        requires { place < length self.old.items }
        ensures { self.new ≡ dict_removed self.old place }
    {
        self.index.remove(place);
        self.entries.remove(place);
    }

    /// The same keys with the same values, unless memory runs out.
    pub(crate) fn try_clone(&self, alloc: Global) -> Result<FilledDict, OutOfMemory>
        ensures { IfOk result (λ d. d ≡ self.now) }
    {
        let mut entries = Vec::new(alloc);
        entries.extend_from_slice(&self.entries)?;
        let index = self.index.try_clone(alloc)?;
        Ok(FilledDict { index, entries })
    }
}
