//! The attributes of an object or a class: names with values, in the order in which they came. A few names are compared one
//! by one, more are found by hash.

ghost use Rattle.py_node.specs.Below.{[], length, is_some, Some, slice_get, IfOk, OnOk, OnErr};
ghost use Rattle.std.specs.Prelude.{◌≡◌, ◌<◌};
ghost use Rattle.py_node.specs.Attributes.{value_of, with_value, without_key, is_same_name, AreNamesDistinct};

use crate::few_attributes::FewAttributes;
use crate::memory::OutOfMemory;
use crate::refs::{PyObjectRef, PyStrInterned};
use indexmap::IndexMap;
use std::alloc::Global;
use std::marker::Model;

// So many names are looked for one by one: a map of them would take more memory and more time.
const FEW: usize = 8;

/// Names with values. A name keeps its place when it gets another value. Before its first name it takes no memory.
#[derive(Drop)]
pub struct PyAttributes {
    store: AttributeStore,
}

/// How the attributes are kept. A map by hash is made once they are more than a few, and stays when they become fewer.
#[derive(Drop)]
pub(crate) enum AttributeStore {
    Few(FewAttributes),
    Many(Box<IndexMap<PyStrInterned, PyObjectRef>>),
}

impl Model for PyAttributes {
    ghost use Rattle.std.specs.Prelude.{List};
    ghost use Rattle.py_node.specs.declared.refs.PyObjectRef.{PyObjectRef as Object};
    ghost use Rattle.py_node.specs.declared.refs.PyStrInterned.{PyStrInterned as Name};
    ghost use Rattle.py_node.specs.AttributeStores.{attributes_in};

    ghost Value = { List (Name × Object) };

    ghost view = { λ a. attributes_in a.store };
}

impl PyAttributes {
    /// No attributes.
    pub fn new(alloc: Global) -> PyAttributes
        ensures { result ≡ [] }
    {
        PyAttributes {
            store: AttributeStore::Few(FewAttributes::new(alloc)),
        }
    }

    /// No attributes, with room for so many names.
    pub fn with_capacity(alloc: Global, capacity: usize) -> Result<PyAttributes, OutOfMemory>
        ensures { IfOk result (λ a. a ≡ []) }
    {
        let store = if capacity <= FEW {
            AttributeStore::Few(FewAttributes::with_capacity(alloc, capacity)?)
        } else {
            let many = IndexMap::with_capacity(alloc, capacity)?;
            AttributeStore::Many(Box::new(alloc, many)?)
        };
        Ok(PyAttributes { store })
    }

    /// How many names there are.
    pub fn len(&self) -> usize
        ensures count { result ≡ length self.now }
        ensures distinct { AreNamesDistinct self.now }
    {
        match &self.store {
            AttributeStore::Few(few) => few.as_slice().len(),
            AttributeStore::Many(many) => many.as_ref().len(),
        }
    }

    /// The value of a name, if it has one.
    pub fn get(&self, name: PyStrInterned) -> Option<PyObjectRef>
        ensures { result ≡ value_of (λ k. is_same_name k name) self.now }
    {
        match &self.store {
            AttributeStore::Few(few) => few.get(name),
            AttributeStore::Many(many) => many.as_ref().get(&name).copied(),
        }
    }

    /// Whether a name has a value.
    pub fn contains(&self, name: PyStrInterned) -> bool
        ensures { result ≡ is_some (value_of (λ k. is_same_name k name) self.now) }
    {
        self.get(name).is_some()
    }

    /// The name and value at a place.
    pub fn at(&self, i: usize) -> (PyStrInterned, PyObjectRef)
        requires { i < length self.now }
        ensures { slice_get self.now i ≡ Some result }
    {
        match &self.store {
            AttributeStore::Few(few) => few.as_slice()[i],
            AttributeStore::Many(many) => {
                let (name, value) = many.as_ref().get_index(i).unwrap();
                (*name, *value)
            }
        }
    }

    /// A value for a name, which goes last if it is new.
    pub fn insert(&mut self, name: PyStrInterned, value: PyObjectRef) -> Result<(), OutOfMemory>
        ensures ok { OnOk result (self.new ≡ with_value is_same_name self.old name value) }
        ensures err { OnErr result (self.new ≡ self.old) }
    {
        match &mut self.store {
            AttributeStore::Few(few) => {
                if few.as_slice().len() < FEW || few.get(name).is_some() {
                    return few.insert(name, value);
                }
                let alloc = few.allocator();
                let more = map_of(alloc, few.as_slice(), name, value)?;
                self.store = AttributeStore::Many(more);
                Ok(())
            }
            AttributeStore::Many(many) => put_in(many.as_mut(), name, value),
        }
    }

    /// Takes a name out, and says whether it was there. The names after it keep their order.
    pub fn remove(&mut self, name: PyStrInterned) -> bool
        ensures there { result ≡ is_some (value_of (λ k. is_same_name k name) self.old) }
        ensures left { self.new ≡ without_key is_same_name self.old name }
    {
        let there = self.contains(name);
        match &mut self.store {
            AttributeStore::Few(few) => few.remove(name),
            AttributeStore::Many(many) => take_out(many.as_mut(), name),
        }
        there
    }

    /// The same names with the same values, unless memory runs out.
    pub fn try_clone(&self, alloc: Global) -> Result<PyAttributes, OutOfMemory>
        ensures { IfOk result (λ a. a ≡ self.now) }
    {
        match &self.store {
            AttributeStore::Few(few) => {
                let copy = few.try_clone(alloc)?;
                Ok(PyAttributes {
                    store: AttributeStore::Few(copy),
                })
            }
            AttributeStore::Many(many) => {
                let copy = many.as_ref().clone()?;
                let copy = Box::new(alloc, copy)?;
                Ok(PyAttributes {
                    store: AttributeStore::Many(copy),
                })
            }
        }
    }
}

// The map of some names with values, none of which stands twice, and of one more.
fn map_of(
    alloc: Global,
    entries: &[(PyStrInterned, PyObjectRef)],
    name: PyStrInterned,
    value: PyObjectRef,
) -> Result<Box<IndexMap<PyStrInterned, PyObjectRef>>, OutOfMemory>
    requires { AreNamesDistinct entries.now }
    ensures { IfOk result (λ b. b.value.entries ≡ with_value is_same_name entries.now name value) }
{
    let mut map = same_map(alloc, entries)?;
    put_in(&mut map, name, value)?;
    Ok(Box::new(alloc, map)?)
}

// The map of some names with values, none of which stands twice, with room for one more.
fn same_map(
    alloc: Global,
    entries: &[(PyStrInterned, PyObjectRef)],
) -> Result<IndexMap<PyStrInterned, PyObjectRef>, OutOfMemory>
    requires { AreNamesDistinct entries.now }
    ensures { IfOk result (λ m. m.entries ≡ entries.now) }
{
    let mut map = IndexMap::with_capacity(alloc, entries.len() + 1)?;
    for entry in entries {
        map.insert(entry.0, entry.1)?;
    }
    Ok(map)
}

// A value for a name in a map, which goes last if it is new.
fn put_in(
    map: &mut IndexMap<PyStrInterned, PyObjectRef>,
    name: PyStrInterned,
    value: PyObjectRef,
) -> Result<(), OutOfMemory>
    ensures ok { OnOk result (map.new.entries ≡ with_value is_same_name map.old.entries name value) }
    ensures err { OnErr result (map.new.entries ≡ map.old.entries) }
{
    map.insert(name, value)?;
    Ok(())
}

// Takes a name out of a map. The names after it keep their order.
fn take_out(map: &mut IndexMap<PyStrInterned, PyObjectRef>, name: PyStrInterned)
    ensures { map.new.entries ≡ without_key is_same_name map.old.entries name }
{
    let _count = map.len();
    map.shift_remove(&name);
}
