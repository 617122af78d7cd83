//! What the class of an object is.

ghost use Rattle.std.specs.Prelude.{◌≡◌};
ghost use Rattle.vm_calls.specs.Below.{type_object, is_instance, Reading, plain, IsNode, IsClass, Holds};

use class_world::World;
use py_node::{PyObjectRef, PyTypeRef};

/// The class of an object, as an object.
pub fn obj_type(world: &World, o: PyObjectRef) -> PyObjectRef
    requires { Holds world.now (IsNode o) }
    ensures class { (t : Reading) → type_object (plain t world.now) o ≡ result }
    ensures node { Holds world.now (IsNode result) }
{
    world.type_object(o)
}

/// Whether an object is one of a class: its own class is that one or derives from it. No method is asked.
pub fn type_check(world: &World, o: PyObjectRef, class: PyTypeRef) -> bool
    requires o { Holds world.now (IsNode o) }
    requires class { Holds world.now (IsClass class.0) }
    ensures { (t : Reading) → is_instance (plain t world.now) o class.0 ≡ result }
{
    world.is_instance(o, class)
}
