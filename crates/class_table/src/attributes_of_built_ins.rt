//! The own attributes of the built-in classes, as a new table gets them: each with the number of the object that it
//! holds in a new world.

ghost use Rattle.class_table.specs.Below.{IfOk, OnOk, fixed_node_count};
ghost use Rattle.std.specs.Prelude.{◌≡◌, ◌<◌, ◌≤◌};
ghost use Rattle.class_table.specs.Start.{HasBuiltIns, value_number, number_past, with_own, with_all_own, with_each_own};

use crate::table::ClassTable;
use py_node::attr::{Attr, OwnAttr};
use py_node::built_in::built_ins;
use py_node::own_attrs::attrs_of;
use py_node::{BuiltIn, OutOfMemory, PyObjectRef};

// The number of None.
const NONE: u64 = 23;

// How many objects there are before: the built-in classes, None, NotImplemented, False and True.
const FIXED_NODE_COUNT: u64 = 27;

/// Gives the built-in classes their own attributes.
pub(crate) fn add_own_attrs(table: &mut ClassTable) -> Result<(), OutOfMemory>
    requires { HasBuiltIns table.old }
    ensures { OnOk result (table.new ≡ (with_each_own (table.old, fixed_node_count)).0) }
{
    let mut next = FIXED_NODE_COUNT;
    for row in built_ins() {
        next = add_attrs(table, row.0, next)?;
    }
    Ok(())
}

// Adds the own attributes of a class, in order, and gives the number of the next new object.
fn add_attrs(table: &mut ClassTable, class: BuiltIn, first: u64) -> Result<u64, OutOfMemory>
    requires there { HasBuiltIns table.old }
    requires few { first ≤ 10000 }
    ensures { IfOk result (λ n. (table.new, n) ≡ with_all_own (table.old, first) class) }
{
    let mut next = first;
    for attr in attrs_of(class) {
        next = add_attr(table, class, *attr, next)?;
    }
    Ok(next)
}

// Adds an own attribute, and gives the number of the next new object.
fn add_attr(
    table: &mut ClassTable,
    class: BuiltIn,
    attr: OwnAttr,
    next: u64,
) -> Result<u64, OutOfMemory>
    requires there { HasBuiltIns table.old }
    requires few { next ≤ 20000 }
    ensures { IfOk result (λ n. (table.new, n) ≡ with_own class (table.old, next) attr) }
{
    let value = value_of(attr.1, next);
    table.put_attr(class.class(), attr.0.interned(), value)?;
    Ok(past(attr.1, next))
}

// The object that an own attribute holds: the next new one, or None.
fn value_of(attr: Attr, next: u64) -> PyObjectRef
    ensures { result ≡ record { 0 = value_number next attr } }
{
    match attr {
        Attr::NoHash => PyObjectRef(NONE),
        _ => PyObjectRef(next),
    }
}

// The number of the next new object after it.
fn past(attr: Attr, next: u64) -> u64
    requires { next ≤ 20000 }
    ensures { result ≡ number_past next attr }
{
    match attr {
        Attr::NoHash => next,
        _ => next + 1,
    }
}
