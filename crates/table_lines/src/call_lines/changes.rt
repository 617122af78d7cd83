//! A table of classes: what is read of them, and how they are changed.

ghost use Rattle.std.specs.Prelude.{◌≡◌, ◌≤◌};

use crate::call_lines::classes::{CHILD, FIRST, SINGLE, STATIC, VALUE, there};
use crate::lists::one_class;
use crate::{NoValue, Table};
use class_table::{ClassTable, Steps};
use py_node::{Known, PyObjectRef, PyStrInterned, PyTypeRef, SlotEntry, SlotId};
use std::alloc::Global;
use std::marker::Brand;
use std::sync::ledger::{Blank, Ledger};

const OTHER: PyStrInterned = PyStrInterned(9);

pub fn put(table: &mut Table, classes: &mut ClassTable, alloc: Global) {
    table.put("ClassTable::mro_collect", line(classes));
    table.put("ClassTable::mro_map_collect", mapped_line(classes));
    table.put("ClassTable::iter_base_chain", chain(classes, alloc));
    table.put(
        "ClassTable::solid_base, base, member_count",
        layout(classes),
    );
    table.put("ClassTable::name", name(classes, CHILD));
    table.put("ClassTable::name", name(classes, STATIC));
    table.put("ClassTable::set_attr", set_attr(classes));
    table.put("ClassTable::del_attr_direct", take_attr(classes));
    table.put("ClassTable::slot", late_slot(classes));
    table.put("ClassTable::get_attributes", inherited(classes));
    table.put("ClassTable::set_name", set_name(classes));
    table.put("ClassTable::set_bases", counted(classes, alloc));
}

fn line(classes: &ClassTable) -> Result<Vec<PyTypeRef>, NoValue> {
    let child = there(classes, CHILD)?;
    Ok(classes.mro_collect(child)?)
}

// The number of each class, the last bit turned.
fn mapped_line(classes: &ClassTable) -> Result<Vec<u64>, NoValue> {
    let child = there(classes, CHILD)?;
    Ok(classes.mro_map_collect(child, |class| class.0 ^ 1)?)
}

// The same attribute, of all that the class has.
fn inherited(classes: &ClassTable) -> Result<Option<PyObjectRef>, NoValue> {
    let child = there(classes, CHILD)?;
    Ok(classes.get_attributes(child)?.get(Known::Add.interned()))
}

fn chain(classes: &ClassTable, alloc: Global) -> Result<Vec<PyTypeRef>, NoValue> {
    let child = there(classes, CHILD)?;
    let mut line = Vec::new(alloc);
    for class in classes.iter_base_chain(child) {
        line.push(class)?;
    }
    Ok(line)
}

// The solid class of a class, its best base, and how many places its objects have.
fn layout(classes: &ClassTable) -> Result<(PyTypeRef, Option<PyTypeRef>, usize), NoValue> {
    let child = there(classes, CHILD)?;
    Ok((
        classes.solid_base(child),
        classes.base(child),
        classes.member_count(child),
    ))
}

// A class's name, and whether a script made the class.
fn name(classes: &ClassTable, class: PyTypeRef) -> Result<(&str, bool), NoValue> {
    let class = there(classes, class)?;
    Ok((classes.name(class), classes.is_heap(class)))
}

fn set_attr(classes: &mut ClassTable) -> Result<Option<PyObjectRef>, NoValue> {
    let child = there(classes, CHILD)?;
    classes.set_attr(child, OTHER, VALUE)?;
    let child = there(classes, CHILD)?;
    Ok(classes.get_direct_attr(child, OTHER))
}

// Whether an attribute was there.
fn take_attr(classes: &mut ClassTable) -> Result<bool, NoValue> {
    let child = there(classes, CHILD)?;
    Ok(classes.del_attr_direct(child, OTHER)?)
}

// Whether a class has an operator that its base gets late.
fn late_slot(classes: &mut ClassTable) -> Result<bool, NoValue> {
    let first = there(classes, FIRST)?;
    classes.set_attr(first, Known::Add.interned(), VALUE)?;
    let child = there(classes, CHILD)?;
    Ok(classes.slot(child, SlotId::Add) == Some(SlotEntry::Wrapper(SlotId::Add)))
}

fn set_name(classes: &mut ClassTable) -> Result<(&str, bool), NoValue> {
    let child = there(classes, CHILD)?;
    if classes.is_heap(child) {
        classes.set_name(child, "b.other")?;
    }
    name(classes, CHILD)
}

// The best base that a class gets, whose merges and slots are counted by this call alone.
fn counted(classes: &mut ClassTable, alloc: Global) -> Result<Option<PyTypeRef>, NoValue> {
    set_bases::<Brand>(classes, alloc, Blank::new(2))
}

// A class below `object` that goes below another one.
fn set_bases<L: Ledger>(
    classes: &mut ClassTable,
    alloc: Global,
    blank: Blank,
) -> Result<Option<PyTypeRef>, NoValue>
    requires name { blank.name ≡ L.name }
    requires parts { blank.parts ≡ L.parts }
    requires both { 2 ≤ L.parts }
{
    let bases = one_class(alloc, there(classes, STATIC)?)?;
    let class = there(classes, SINGLE)?;
    let mut steps = Steps::<L>::new(blank);
    classes.set_bases(class, bases, &mut steps)?;
    let class = there(classes, SINGLE)?;
    Ok(classes.base(class))
}
