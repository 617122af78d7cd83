//! An object that can be called.

ghost use Rattle.vm_calls.specs.Below.{is_some, option_map, IfSome, slot_at, Reading, Reads, plain, IsNode, Holds};
ghost use Rattle.std.specs.Prelude.{◌≡◌};
ghost use Rattle.py_node.specs.declared.entry.SlotId.TheVariants.{Call};
ghost use Rattle.vm_calls.specs.OfProtocols.Views.{called_by};

use class_world::World;
use py_node::{PyObjectRef, SlotEntry, SlotId};

/// An object, with what its class has to call it.
#[derive(Clone, Copy)]
pub struct PyCallable {
    pub obj: PyObjectRef,
    pub call: SlotEntry,
}

impl PyCallable {
    /// The view of an object that can be called. None exactly where its class has nothing to call it with.
    pub fn new(world: &World, o: PyObjectRef) -> Option<PyCallable>
        requires { Holds world.now (IsNode o) }
        ensures read { (t : Reading) → Reads t world.now →
            result ≡ option_map (called_by o) (slot_at (plain t world.now) o Call) }
        ensures obj { IfSome result (λ v. v.obj ≡ o) }
    {
        let call = world.slot(o, SlotId::Call)?;
        Some(PyCallable { obj: o, call })
    }
}

/// The view of an object that can be called. None exactly where its class has nothing to call it with.
pub fn to_callable(world: &World, o: PyObjectRef) -> Option<PyCallable>
    requires { Holds world.now (IsNode o) }
    ensures read { (t : Reading) → Reads t world.now →
        result ≡ option_map (called_by o) (slot_at (plain t world.now) o Call) }
    ensures obj { IfSome result (λ v. v.obj ≡ o) }
{
    PyCallable::new(world, o)
}

/// Whether an object can be called: its class has something to call it with.
pub fn is_callable(world: &World, o: PyObjectRef) -> bool
    requires { Holds world.now (IsNode o) }
    ensures { (t : Reading) → Reads t world.now → result ≡ is_some (slot_at (plain t world.now) o Call) }
{
    world.slot(o, SlotId::Call).is_some()
}
