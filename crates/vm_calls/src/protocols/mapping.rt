//! An object as a mapping.

ghost use Rattle.vm_calls.specs.Below.{is_some, is_ok, IfOk, IfErr, raised, MapSubscript, NotMapping, slot_at, Reading, Reads, plain, IsNode, Holds};
ghost use Rattle.std.specs.Prelude.{◌≡◌};
ghost use Rattle.vm_calls.specs.OfProtocols.Views.{HasMappingSlots};

use crate::slot_tables::PyMappingMethods;
use class_world::World;
use py_node::{Cause, PyObjectRef, Raised, SlotId};

/// An object, with a table of the slots of mappings: that of its class, or one that it was given.
#[derive(Clone, Copy)]
pub struct PyMapping {
    pub obj: PyObjectRef,
    pub methods: PyMappingMethods,
}

impl PyMapping {
    /// What the class of an object has in the slots of mappings: all of them are read at the first class along its
    /// linearisation that has any.
    pub fn find_methods(world: &World, o: PyObjectRef) -> PyMappingMethods
        requires { Holds world.now (IsNode o) }
        ensures { (t : Reading) → Reads t world.now → HasMappingSlots (plain t world.now) o result }
    {
        PyMappingMethods {
            length: world.slot(o, SlotId::MapLength),
            subscript: world.slot(o, SlotId::MapSubscript),
            ass_subscript: world.slot(o, SlotId::MapAssSubscript),
        }
    }

    /// The view of an object with the table of its class. It may be empty.
    pub fn new(world: &World, o: PyObjectRef) -> PyMapping
        requires { Holds world.now (IsNode o) }
        ensures obj { result.obj ≡ o }
        ensures methods { (t : Reading) → Reads t world.now → HasMappingSlots (plain t world.now) o result.methods }
    {
        PyMapping {
            obj: o,
            methods: PyMapping::find_methods(world, o),
        }
    }

    /// The view of an object with a given table.
    pub fn with_methods(obj: PyObjectRef, methods: PyMappingMethods) -> PyMapping
        ensures obj { result.obj ≡ obj }
        ensures methods { result.methods ≡ methods }
    {
        PyMapping { obj, methods }
    }

    /// The view of an object with the table of its class, where that gives the value of a key.
    ///
    /// # Errors
    /// TypeError NotMapping, exactly where the class has nothing that gives the value of a key.
    pub fn try_protocol(world: &World, o: PyObjectRef) -> Result<PyMapping, Raised>
        requires { Holds world.now (IsNode o) }
        ensures subscript { (t : Reading) → Reads t world.now →
            is_ok result ≡ is_some (slot_at (plain t world.now) o MapSubscript) }
        ensures obj { IfOk result (λ v. v.obj ≡ o) }
        ensures methods { IfOk result (λ v. (t : Reading) → Reads t world.now →
            HasMappingSlots (plain t world.now) o v.methods) }
        ensures cause { IfErr result (λ e. e ≡ raised NotMapping) }
    {
        let view = PyMapping::new(world, o);
        if view.check() {
            Ok(view)
        } else {
            Err(Raised::new(Cause::NotMapping))
        }
    }

    /// Whether the view is of a mapping: its table has what gives the value of a key.
    pub fn check(&self) -> bool
        ensures { result ≡ is_some self.now.methods.subscript }
    {
        self.methods.subscript.is_some()
    }
}

/// The view of an object as a mapping, with the table of its class. It may be empty.
pub fn to_mapping(world: &World, o: PyObjectRef) -> PyMapping
    requires { Holds world.now (IsNode o) }
    ensures obj { result.obj ≡ o }
    ensures methods { (t : Reading) → Reads t world.now → HasMappingSlots (plain t world.now) o result.methods }
{
    PyMapping::new(world, o)
}
