//! Changes of classes, each with all that is needed to make it once more.

ghost use Rattle.class_table.specs.Below.{IfOk};
ghost use Rattle.std.specs.Prelude.{◌≡◌};
ghost use Rattle.class_table.specs.Keys.{slot_names};
ghost use Rattle.class_table.specs.ClassLog.Change.{change_of};

use py_node::{OutOfMemory, PyAttributes, PyObjectRef, PyStrInterned, PyTypeFlags, PyTypeRef};
use std::alloc::Global;

/// A change of classes.
#[derive(Drop)]
pub enum ClassChange {
    /// A class is made. Where its flags say that it is on the heap, a script makes it, with these bases and what its
    /// `__slots__` name, where it has some. Else it is a static class, with one base and no `__slots__`.
    Make {
        class: PyTypeRef,
        name: String,
        bases: Vec<PyTypeRef>,
        attrs: PyAttributes,
        slots: Option<Vec<PyStrInterned>>,
        flags: PyTypeFlags,
    },
    /// An own attribute of a class gets a value: in its place, or last.
    SetOwn {
        class: PyTypeRef,
        name: PyStrInterned,
        value: PyObjectRef,
    },
    /// An own attribute of a class is taken out, if it is there.
    DelOwn {
        class: PyTypeRef,
        name: PyStrInterned,
    },
    /// A class gets other bases.
    SetBases {
        class: PyTypeRef,
        bases: Vec<PyTypeRef>,
    },
}

// The same names, where there are some.
pub(crate) fn copy_slots(
    alloc: Global,
    slots: &Option<Vec<PyStrInterned>>,
) -> Result<Option<Vec<PyStrInterned>>, OutOfMemory>
    ensures { IfOk result (λ s. slot_names s ≡ slot_names slots.now) }
{
    match slots {
        None => Ok(None),
        Some(names) => Ok(Some(Vec::from_slice(alloc, names)?)),
    }
}

impl ClassChange {
    /// The same change, unless memory runs out.
    pub fn try_clone(&self, alloc: Global) -> Result<ClassChange, OutOfMemory>
        ensures { IfOk result (λ c. change_of c ≡ change_of self.now) }
    {
        match self {
            ClassChange::Make {
                class,
                name,
                bases,
                attrs,
                slots,
                flags,
            } => Ok(ClassChange::Make {
                class: *class,
                name: String::from_str(alloc, name.as_str())?,
                bases: Vec::from_slice(alloc, bases)?,
                attrs: attrs.try_clone(alloc)?,
                slots: copy_slots(alloc, slots)?,
                flags: *flags,
            }),
            ClassChange::SetOwn { class, name, value } => Ok(ClassChange::SetOwn {
                class: *class,
                name: *name,
                value: *value,
            }),
            ClassChange::DelOwn { class, name } => Ok(ClassChange::DelOwn {
                class: *class,
                name: *name,
            }),
            ClassChange::SetBases { class, bases } => Ok(ClassChange::SetBases {
                class: *class,
                bases: Vec::from_slice(alloc, bases)?,
            }),
        }
    }
}
