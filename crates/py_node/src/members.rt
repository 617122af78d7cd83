//! The members of an object: what stands in its places, one after another.

ghost use Rattle.py_node.specs.Below.{[], length, slice_set, IfOk};
ghost use Rattle.std.specs.Prelude.{◌≡◌, ◌<◌};
ghost use Rattle.py_node.specs.Places.{empty_places, value_at};

use crate::memory::OutOfMemory;
use crate::refs::{PyObjectRef, PyTypeRef};
use std::alloc::Global;
use std::marker::Model;

/// A place of an object: the class that gives it, and the index among that class's own members.
#[derive(Clone, Copy, PartialEq, Eq, Debug)]
pub struct MemberPlace {
    pub class: PyTypeRef,
    pub index: usize,
}

/// What stands in the places of an object, each at its offset. There are as many as the object's class gives, also of those
/// that are empty.
#[derive(Drop)]
pub struct PyMembers {
    values: Vec<Option<PyObjectRef>>,
}

impl Model for PyMembers {
    ghost use Rattle.std.specs.Prelude.{List, Option};
    ghost use Rattle.py_node.specs.declared.refs.PyObjectRef.{PyObjectRef as Object};

    ghost Value = { List (Option Object) };

    ghost view = { λ a. a.values.items };
}

impl PyMembers {
    /// No places. They take no memory.
    pub fn new(alloc: Global) -> PyMembers
        ensures { result ≡ [] }
    {
        PyMembers {
            values: Vec::new(alloc),
        }
    }

    /// So many places, all of them empty.
    pub fn with_places(alloc: Global, count: usize) -> Result<PyMembers, OutOfMemory>
        ensures { IfOk result (λ m. m ≡ empty_places count) }
    {
        Ok(PyMembers {
            values: Vec::from_elem(alloc, None, count)?,
        })
    }

    /// What stands at an offset, unless that place is empty or there is none.
    pub fn get(&self, offset: usize) -> Option<PyObjectRef>
        ensures { result ≡ value_at self.now offset }
    {
        match self.values.get(offset) {
            None => None,
            Some(value) => *value,
        }
    }

    /// Sets the place at an offset, or empties it. No other place changes, and it takes no memory.
    pub fn set(&mut self, offset: usize, value: Option<PyObjectRef>)
        requires { offset < length self.old }
        ensures { self.new ≡ slice_set self.old offset value }
    {
        self.values[offset] = value;
    }
}
