//! A few attributes, which are looked for one by one.

ghost use Rattle.py_node.specs.Below.{[], position, length, IfOk, IfSome, OnOk, OnErr};
ghost use Rattle.std.specs.Prelude.{◌≡◌, ◌<◌};
ghost use Rattle.py_node.specs.Attributes.{value_of, with_value, without_key, is_same_name, AreNamesDistinct};

use crate::memory::OutOfMemory;
use crate::refs::{PyObjectRef, PyStrInterned};
use std::alloc::Global;
use std::marker::Model;

/// Names with values in the order in which the names came, none of them twice. Before its first name it takes no memory.
#[derive(Drop)]
pub(crate) struct FewAttributes {
    entries: Vec<(PyStrInterned, PyObjectRef)>,
}

impl Model for FewAttributes {
    ghost use Rattle.std.specs.Prelude.{List};
    ghost use Rattle.py_node.specs.Attributes.{AreNamesDistinct};
    ghost use Rattle.py_node.specs.declared.refs.PyObjectRef.{PyObjectRef as Object};
    ghost use Rattle.py_node.specs.declared.refs.PyStrInterned.{PyStrInterned as Name};

    ghost Value = { List (Name × Object) };

    ghost view = { λ a. a.entries.items };

    ghost invariant = { λ a. AreNamesDistinct a.entries.items };
}

impl FewAttributes {
    /// No attributes.
    pub(crate) fn new(alloc: Global) -> FewAttributes
        ensures { result ≡ [] }
    {
        FewAttributes {
            entries: Vec::new(alloc),
        }
    }

    /// No attributes, with room for so many.
    pub(crate) fn with_capacity(
        alloc: Global,
        capacity: usize,
    ) -> Result<FewAttributes, OutOfMemory>
        ensures { IfOk result (λ a. a ≡ []) }
    {
        let entries = Vec::with_capacity(alloc, capacity)?;
        Ok(FewAttributes { entries })
    }

    /// Where it takes its memory from.
    pub(crate) fn allocator(&self) -> Global {
        *self.entries.allocator()
    }

    /// The names with their values, in order.
    pub(crate) fn as_slice(&self) -> &[(PyStrInterned, PyObjectRef)]
        ensures entries { result.now ≡ self.now }
        ensures distinct { AreNamesDistinct result.now }
    {
        &self.entries
    }

    /// The value of a name, if it has one.
    pub(crate) fn get(&self, name: PyStrInterned) -> Option<PyObjectRef>
        ensures { result ≡ value_of (λ k. is_same_name k name) self.now }
    {
        value_among(&self.entries, name)
    }

    /// A value for a name, which goes last if it is new. Where memory runs out, the attributes are as they were.
    pub(crate) fn insert(
        &mut self,
        name: PyStrInterned,
        value: PyObjectRef,
    ) -> Result<(), OutOfMemory>
        ensures ok { OnOk result (self.new ≡ with_value is_same_name self.old name value) }
        ensures err { OnErr result (self.new ≡ self.old) }
    {
        put_among(&mut self.entries, name, value)?;
        Ok(())
    }

    /// Takes a name out. The names after it keep their order.
    pub(crate) fn remove(&mut self, name: PyStrInterned)
        ensures { self.new ≡ without_key is_same_name self.old name }
    {
        cut_among(&mut self.entries, name);
    }

    /// The same names with the same values, unless memory runs out.
    pub(crate) fn try_clone(&self, alloc: Global) -> Result<FewAttributes, OutOfMemory>
        ensures { IfOk result (λ a. a ≡ self.now) }
    {
        let mut entries = Vec::with_capacity(alloc, self.entries.len())?;
        entries.extend_from_slice(&self.entries)?;
        Ok(FewAttributes { entries })
    }
}

// The place of a name among a few.
fn place_among(entries: &[(PyStrInterned, PyObjectRef)], name: PyStrInterned) -> Option<usize>
    ensures first { result ≡ position (λ e. is_same_name e.0 name) entries.now }
    ensures below { IfSome result (λ n. n < length entries.now) }
{
    for (place, entry) in entries.iter().enumerate() {
        if entry.0 == name {
            return Some(place);
        }
    }
    None
}

// The value of a name among a few, if it is there.
fn value_among(entries: &[(PyStrInterned, PyObjectRef)], name: PyStrInterned) -> Option<PyObjectRef>
    ensures { result ≡ value_of (λ k. is_same_name k name) entries.now }
{
    match place_among(entries, name) {
        None => None,
        Some(place) => Some(entries[place].1),
    }
}

// A value for a name among a few, which goes last if it is new.
fn put_among(
    entries: &mut Vec<(PyStrInterned, PyObjectRef)>,
    name: PyStrInterned,
    value: PyObjectRef,
) -> Result<(), OutOfMemory>
    ensures ok { OnOk result (entries.new.items ≡ with_value is_same_name entries.old.items name value) }
    ensures err { OnErr result (entries.new.items ≡ entries.old.items) }
{
    match place_among(entries, name) {
        None => entries.push((name, value))?,
        Some(place) => entries[place] = (name, value),
    }
    Ok(())
}

// Takes a name out of a few. The names after it keep their order.
fn cut_among(entries: &mut Vec<(PyStrInterned, PyObjectRef)>, name: PyStrInterned)
    requires { AreNamesDistinct entries.old.items }
    ensures { entries.new.items ≡ without_key is_same_name entries.old.items name }
{
    match place_among(entries, name) {
        None => {}
        Some(place) => {
            entries.remove(place);
        }
    }
}
