//! The classes of the example, and how they are changed.

ghost use Rattle.std.specs.Prelude.{◌≡◌};

use crate::stop::Stop;
use class_table::class_log::ClassChange;
use class_view::ClassWriter;
use py_node::{OutOfMemory, PyAttributes, PyStrInterned, PyTypeFlags, PyTypeRef};
use std::alloc::Global;

/// The class of all objects, which is there before any change.
pub const OBJECT: PyTypeRef = PyTypeRef(0);

pub const A: PyTypeRef = PyTypeRef(100);

pub const P: PyTypeRef = PyTypeRef(101);

pub const Q: PyTypeRef = PyTypeRef(102);

pub const X: PyTypeRef = PyTypeRef(103);

pub const D: PyTypeRef = PyTypeRef(104);
/// The number of the name `x`.
pub const NAME_X: PyStrInterned = PyStrInterned(1_000);

/// What makes a class as a script makes it, with these bases and no attributes.
pub fn made(
    alloc: Global,
    class: PyTypeRef,
    name: &str,
    bases: &[PyTypeRef],
) -> Result<ClassChange, OutOfMemory> {
    Ok(ClassChange::Make {
        class,
        name: String::from_str(alloc, name)?,
        bases: Vec::from_slice(alloc, bases)?,
        attrs: PyAttributes::new(alloc),
        slots: None,
        flags: PyTypeFlags::of_script_class(true),
    })
}

/// Makes a change, which is then pending.
pub fn append(writer: &mut ClassWriter, change: &ClassChange) -> Result<(), Stop>
    ensures published { writer.new.published ≡ writer.old.published }
{
    if !writer.is_fit(change) {
        return Err(Stop::Refused);
    }
    writer.append(change)?;
    Ok(())
}
