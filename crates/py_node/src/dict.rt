//! Dicts: keys with their values, in the order in which the keys came. Few keys are compared one by one, more are found by
//! hash.

ghost use Rattle.py_node.specs.Below.{length, position, None, IfOk, IfSome, OnOk, OnErr};
ghost use Rattle.std.specs.Prelude.{◌≡◌, ◌<◌};
ghost use Rattle.py_node.specs.Dicts.{dict_pushed, dict_put, dict_removed, empty_dict, is_same_key};

use crate::filled_dict::FilledDict;
use crate::memory::OutOfMemory;
use crate::refs::{PyObjectRef, PyStrInterned};
use std::alloc::Global;
use std::marker::Model;

/// What an object is as a key: a whole number, or the name of a text. A bool is its number.
#[derive(Clone, Copy, PartialEq, Eq, Hash, Debug)]
pub enum PyDictKey {
    Number(i128),
    Text(PyStrInterned),
}

/// Keys with their values, in the order in which the keys came. None stands twice. Each entry is the object that is the
/// key, and the value. A dict takes no memory of its own before it gets its first key.
#[derive(Drop)]
pub struct PyDict {
    filled: Option<Box<FilledDict>>,
}

impl Model for PyDict {
    ghost use Rattle.py_node.specs.Dicts.{PlainDict, filled_or_empty};

    ghost Value = { PlainDict };

    ghost view = { λ a. filled_or_empty a.filled };
}

impl PyDict {
    /// A dict without keys.
    pub fn new(_alloc: Global) -> PyDict
        ensures { result ≡ empty_dict }
    {
        PyDict { filled: None }
    }

    /// The object of each key with its value, in order.
    pub fn entries(&self) -> &[(PyObjectRef, PyObjectRef)]
        ensures entries { result.now ≡ self.now.items }
        ensures along { length self.now.keys ≡ length self.now.items }
    {
        match &self.filled {
            None => &[],
            Some(filled) => filled.as_ref().entries(),
        }
    }

    /// How many keys there are.
    pub fn len(&self) -> usize
        ensures { result ≡ length self.now.items }
    {
        self.entries().len()
    }

    /// The place of a key, if it is there.
    pub fn place_of(&self, key: PyDictKey) -> Option<usize>
        ensures first { result ≡ position (is_same_key key) self.now.keys }
        ensures below { IfSome result (λ n. n < length self.now.items) }
    {
        match &self.filled {
            None => None,
            Some(filled) => filled.as_ref().place_of(key),
        }
    }

    /// Another value for the key at a place.
    pub fn put(&mut self, place: usize, value: PyObjectRef)
        requires { place < length self.old.items }
        ensures { self.new ≡ dict_put self.old place value }
    {
        match &mut self.filled {
            None => {}
            Some(filled) => filled.as_mut().put(place, value),
        }
    }

    /// One more key, which goes last, with the object that is the key and its value. Where memory runs out, the dict is as it was.
    pub fn push(
        &mut self,
        alloc: Global,
        key: PyDictKey,
        object: PyObjectRef,
        value: PyObjectRef,
    ) -> Result<(), OutOfMemory>
        requires { position (is_same_key key) self.old.keys ≡ None }
        ensures ok { OnOk result (self.new ≡ dict_pushed self.old key object value) }
        ensures err { OnErr result (self.new ≡ self.old) }
    {
        match &mut self.filled {
            None => {
                let first = first_key(alloc, key, object, value)?;
                self.filled = Some(first);
                Ok(())
            }
            Some(filled) => filled.as_mut().push(alloc, key, object, value),
        }
    }

    /// Takes out the key at a place, with its value. The keys after it keep their order.
    pub fn remove(&mut self, place: usize)
        requires { place < length self.old.items }
        ensures { self.new ≡ dict_removed self.old place }
    {
        match &mut self.filled {
            None => {}
            Some(filled) => filled.as_mut().remove(place),
        }
    }

    /// The same keys with the same values, unless memory runs out.
    pub fn try_clone(&self, alloc: Global) -> Result<PyDict, OutOfMemory>
        ensures { IfOk result (λ d. d ≡ self.now) }
    {
        match &self.filled {
            None => Ok(PyDict { filled: None }),
            Some(filled) => {
                let copy = filled.as_ref().try_clone(alloc)?;
                let boxed = Box::new(alloc, copy)?;
                Ok(PyDict {
                    filled: Some(boxed),
                })
            }
        }
    }
}

// A first key, with the object that is the key and its value.
fn first_key(
    alloc: Global,
    key: PyDictKey,
    object: PyObjectRef,
    value: PyObjectRef,
) -> Result<Box<FilledDict>, OutOfMemory>
    ensures { IfOk result (λ d. d.value ≡ dict_pushed empty_dict key object value) }
{
    let mut first = FilledDict::new(alloc);
    first.push(alloc, key, object, value)?;
    Ok(Box::new(alloc, first)?)
}
