//! What several rows ask: a special method, or a native of one object.

ghost use Rattle.proto_object.specs.Below.{[], IfOk, IfSome, known_text, native_task, special_at, ToAttribute, DoSpecial, AllHold, Holds, IsNode, of_task, Reading, Reads, plain, task_of};
ghost use Rattle.std.specs.Prelude.{◌≡◌, ◌∷◌};

use class_world::World;
use class_world::args::alone;
use class_world::natives::native_task;
use py_node::{AttributeTask, Known, NativeEntry, OutOfMemory, PyObjectRef, Task};

/// The special method of a name that an object's class has, if any.
pub(crate) fn method(world: &World, object: PyObjectRef, name: Known) -> Option<PyObjectRef>
    requires { Holds world.now (IsNode object) }
    ensures found { (t : Reading) → Reads t world.now →
        special_at (plain t world.now) object (known_text name) ≡ result }
    ensures node { IfSome result (λ r. Holds world.now (IsNode r)) }
{
    world.special(object, world.known(name))
}

/// The call of an object's special method, with nothing else.
pub(crate) fn special(world: &World, object: PyObjectRef, name: Known) -> Task
    requires { Holds world.now (IsNode object) }
    ensures task { (t : Reading) → Reads t world.now → task_of t result ≡
        ToAttribute (DoSpecial object (known_text name) [] []) }
    ensures holds { AllHold world.now (of_task result) }
{
    let alloc = world.alloc();
    let args = Vec::new(alloc);
    let kw = Vec::new(alloc);
    Task::Attribute(AttributeTask::Special(object, world.known(name), args, kw))
}

/// A native of an object alone.
pub(crate) fn native_of(
    world: &World,
    native: NativeEntry,
    object: PyObjectRef,
) -> Result<Task, OutOfMemory>
    requires { Holds world.now (IsNode object) }
    ensures task { IfOk result (λ task. (t : Reading) → task_of t task ≡ native_task native (object ∷ []) []) }
    ensures holds { IfOk result (λ task. AllHold world.now (of_task task)) }
{
    let alloc = world.alloc();
    let args = alone(alloc, object)?;
    Ok(native_task(native, args, Vec::new(alloc)))
}
