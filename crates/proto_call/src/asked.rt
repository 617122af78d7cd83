//! What several rows ask, and how they refuse.

ghost use Rattle.std.specs.Prelude.{◌≡◌, ◌∷◌};
ghost use Rattle.proto_call.specs.Below.{known_text, ToAttribute, DoSpecial, AllHold, IsNode, of_args, of_task, Reading, Reads, bindings, task_of};

use class_world::World;
use py_node::task::{Args, Keywords};
use py_node::{AttributeTask, Known, PyObjectRef, Task};

/// The call of an object's special method.
pub(crate) fn special(
    world: &World,
    object: PyObjectRef,
    name: Known,
    args: Args,
    kw: Keywords,
) -> Task
    requires { AllHold world.now (IsNode object ∷ of_args args.items kw.items) }
    ensures task { (t : Reading) → Reads t world.now → task_of t result ≡
        ToAttribute (DoSpecial object (known_text name) args.items (bindings t kw.items)) }
    ensures holds { AllHold world.now (of_task result) }
{
    Task::Attribute(AttributeTask::Special(object, world.known(name), args, kw))
}
