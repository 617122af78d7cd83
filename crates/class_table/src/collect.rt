//! What the classes along a linearisation have, put together.

ghost use Rattle.class_table.specs.Below.{true, IfOk, OnOk, Some, is_same_name, is_ascending, with_values, attributes_along};
ghost use Rattle.std.specs.Prelude.{◌≡◌};
ghost use Rattle.class_table.specs.Stored.{classes_of};
ghost use Rattle.class_table.specs.Keys.{numbers};
ghost use Rattle.class_table.specs.Given.{AreGiven};

use crate::place::find;
use crate::stored_classes::StoredClasses;
use py_node::{OutOfMemory, PyAttributes, PyTypeRef};
use std::alloc::Global;

// The attributes of the classes along a line, from its end up.
pub(crate) fn attributes_along(
    classes: &StoredClasses,
    alloc: Global,
    line: &[PyTypeRef],
) -> Result<PyAttributes, OutOfMemory>
    requires { is_ascending (classes_of classes.now) ≡ true }
    ensures { IfOk result (λ a. a ≡ attributes_along is_same_name (classes_of classes.now) (numbers line.now)) }
{
    let mut found = PyAttributes::new(alloc);
    for class in line.iter().rev() {
        if let Some(stored) = find(classes, *class) {
            put_all(&mut found, stored.attributes())?;
        }
    }
    Ok(found)
}

// Puts the values of some attributes among others.
fn put_all(found: &mut PyAttributes, attrs: &PyAttributes) -> Result<(), OutOfMemory>
    ensures { OnOk result (found.new ≡ with_values is_same_name found.old attrs.now) }
{
    for i in 0..attrs.len() {
        let (name, value) = attrs.at(i);
        found.insert(name, value)?;
    }
    Ok(())
}

// What a function gives for each class along a line.
pub(crate) fn map_along<T: Drop, F: Fn(PyTypeRef) -> T>(
    alloc: Global,
    line: &[PyTypeRef],
    f: F,
) -> Result<Vec<T>, OutOfMemory>
    requires { F.IsAlwaysCallable f }
    ensures { IfOk result (λ v. AreGiven (F.post f) (Some (numbers line.now)) v.items) }
{
    let mut given = Vec::new(alloc);
    for class in line {
        given.push(f(*class))?;
    }
    Ok(given)
}
