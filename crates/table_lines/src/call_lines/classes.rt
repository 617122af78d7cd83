//! A table of classes: how classes are made.

ghost use Rattle.std.specs.Prelude.{◌≡◌, ◌≤◌, true, IfOk};
ghost use Rattle.class_model.specs.Class.{is_class};
ghost use Rattle.class_model.specs.Numbers.{limit};

use crate::lists::one_class;
use crate::{NoValue, Table};
use class_table::start::known_names;
use class_table::{ClassTable, slot_members};
use py_node::{
    Known, OutOfMemory, PyAttributes, PyObjectRef, PyStrInterned, PyTypeFlags, PyTypeRef,
};
use std::alloc::Global;

/// The built-in class of all objects.
pub const OBJECT: PyTypeRef = PyTypeRef(0);

/// The built-in class of whole numbers.
pub const INT: PyTypeRef = PyTypeRef(4);

/// A class below `int` that has a member.
pub const FIRST: PyTypeRef = PyTypeRef(100);

/// A simple class below that one.
pub const CHILD: PyTypeRef = PyTypeRef(200);

/// A static class below `object`.
pub const STATIC: PyTypeRef = PyTypeRef(300);

/// Another class below `object`.
pub const SINGLE: PyTypeRef = PyTypeRef(400);

/// The name of that member.
pub const NAME: PyStrInterned = PyStrInterned(7);

/// The value of attributes.
pub const VALUE: PyObjectRef = PyObjectRef(8);

pub fn put(table: &mut Table, classes: &mut ClassTable, alloc: Global) {
    table.put("class_table::known_names", known(alloc));
    table.tell("ClassTable::new", &classes.len());
    table.put("ClassTable::new_heap_slots", heap_class(classes, alloc));
    table.put("ClassTable::new_simple_heap", simple_class(classes));
    table.put("ClassTable::new_static", static_class(classes, alloc));
    table.put("ClassTable::new_single", single_class(classes, alloc));
    table.put("ClassTable::may_derive", derives(classes, alloc));
    table.tell("ClassTable::takes", &taken(classes));
    table.put("ClassTable::has_dict", dicts(classes));
    table.put("ClassTable::would_have_dict", wanted(classes, alloc));
    table.put("class_table::slot_members", members(alloc));
}

/// A number, if it is that of a class.
pub fn there(classes: &ClassTable, class: PyTypeRef) -> Result<PyTypeRef, NoValue>
    ensures class { IfOk result (λ c. is_class classes.now c.0 ≡ true) }
    ensures same { IfOk result (λ c. c ≡ class) }
{
    if classes.has_class(class) {
        Ok(class)
    } else {
        Err(NoValue)
    }
}

// A number, if a new class may have it.
fn fresh(classes: &ClassTable, number: PyTypeRef) -> Result<PyTypeRef, NoValue>
    ensures { IfOk result (λ c. limit classes.now ≤ c.0) }
{
    if classes.takes(number) {
        Ok(number)
    } else {
        Err(NoValue)
    }
}

// Whether a known name has its number.
fn known(alloc: Global) -> Result<bool, OutOfMemory> {
    let names = known_names(alloc)?;
    Ok(names.interned_str("__qualname__") == Some(Known::Qualname.interned()))
}

fn heap_class(classes: &mut ClassTable, alloc: Global) -> Result<PyTypeRef, NoValue> {
    let number = fresh(classes, FIRST)?;
    let bases = one_class(alloc, there(classes, INT)?)?;
    let members = vec![in alloc; NAME]?;
    let attrs = PyAttributes::new(alloc);
    Ok(classes.new_heap_slots(number, "first", bases, attrs, Some(members))?)
}

fn simple_class(classes: &mut ClassTable) -> Result<PyTypeRef, NoValue> {
    let base = there(classes, FIRST)?;
    let number = fresh(classes, CHILD)?;
    Ok(classes.new_simple_heap(number, "a.child", base)?)
}

fn static_class(classes: &mut ClassTable, alloc: Global) -> Result<PyTypeRef, NoValue> {
    let base = there(classes, OBJECT)?;
    let number = fresh(classes, STATIC)?;
    let attrs = PyAttributes::new(alloc);
    let flags = PyTypeFlags::of_script_class(true);
    Ok(classes.new_static(number, "a.b.static", base, attrs, flags)?)
}

// A class with the flags of one that a script makes.
fn single_class(classes: &mut ClassTable, alloc: Global) -> Result<PyTypeRef, NoValue> {
    let base = there(classes, OBJECT)?;
    let number = fresh(classes, SINGLE)?;
    let attrs = PyAttributes::new(alloc);
    let flags = PyTypeFlags::of_script_class(true);
    Ok(classes.new_single(number, "single", base, attrs, flags, true)?)
}

// Whether the objects of two classes have a dict.
fn dicts(classes: &ClassTable) -> Result<(bool, bool), NoValue> {
    let first = there(classes, FIRST)?;
    let child = there(classes, CHILD)?;
    Ok((classes.has_dict(first), classes.has_dict(child)))
}

// Whether the objects of a class with no bases would have a dict: without `__slots__`, with `__dict__` and with another name.
fn wanted(classes: &ClassTable, alloc: Global) -> Result<(bool, bool, bool), OutOfMemory> {
    let dict = Some(vec![in alloc; Known::Dict.interned()]?);
    let other = Some(vec![in alloc; NAME]?);
    Ok((
        classes.would_have_dict(&[], &None),
        classes.would_have_dict(&[], &dict),
        classes.would_have_dict(&[], &other),
    ))
}

// How many members `__dict__` and another name are.
fn members(alloc: Global) -> Result<usize, OutOfMemory> {
    let names = vec![in alloc; Known::Dict.interned(), NAME]?;
    Ok(slot_members(alloc, Some(names)).len())
}

// Whether a new class may have the number of a class, one that was passed over, and a later one.
fn taken(classes: &ClassTable) -> (bool, bool, bool) {
    let between = PyTypeRef(250);
    let later = PyTypeRef(1000);
    (
        classes.takes(SINGLE),
        classes.takes(between),
        classes.takes(later),
    )
}

// Two bases, in this order.
fn derives(classes: &ClassTable, alloc: Global) -> Result<(), NoValue> {
    let bases = vec![in alloc; there(classes, CHILD)?, there(classes, INT)?]?;
    Ok(classes.may_derive(&bases)?)
}
