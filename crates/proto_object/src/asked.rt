//! What several rows ask or read: a special method, an attribute, a truth value that is told.

ghost use Rattle.proto_object.specs.Below.{[], IfSome, known_text, special_at, ToAttribute, DoSpecial, of_task, Reading, Reads, plain, task_of, AllHold, AreNodes, Holds, IsNode};
ghost use Rattle.std.specs.Prelude.{◌≡◌};
ghost use Rattle.proto_object.specs.Classes.{attribute};

use crate::ObjectKept;
use class_world::World;
use py_node::task::Args;
use py_node::{Answer, AttributeTask, Known, PyObjectRef, Step, Task};

/// The special method of a name that an object's class has, if any.
pub(crate) fn method(world: &World, object: PyObjectRef, name: Known) -> Option<PyObjectRef>
    requires { Holds world.now (IsNode object) }
    ensures found { (t : Reading) → Reads t world.now →
        special_at (plain t world.now) object (known_text name) ≡ result }
    ensures node { IfSome result (λ r. Holds world.now (IsNode r)) }
{
    world.special(object, world.known(name))
}

/// The call of an object's special method.
pub(crate) fn special(world: &World, object: PyObjectRef, name: Known, args: Args) -> Task
    requires object { Holds world.now (IsNode object) }
    requires args { Holds world.now (AreNodes args.items) }
    ensures task { (t : Reading) → Reads t world.now → task_of t result ≡
        ToAttribute (DoSpecial object (known_text name) args.items []) }
    ensures holds { AllHold world.now (of_task result) }
{
    let kw = Vec::new(world.alloc());
    Task::Attribute(AttributeTask::Special(object, world.known(name), args, kw))
}

/// An object's attribute.
pub(crate) fn attribute(world: &World, object: PyObjectRef, name: Known) -> Task
    requires { Holds world.now (IsNode object) }
    ensures task { (t : Reading) → Reads t world.now → task_of t result ≡ attribute object name }
    ensures holds { AllHold world.now (of_task result) }
{
    Task::Attribute(AttributeTask::GetAttr(object, world.known(name)))
}

/// The row ends with a truth value.
pub(crate) fn says(truth: bool) -> Step<ObjectKept>
    ensures { result ≡ Step.End (Ok (Answer.Truth truth)) }
{
    Step::End(Ok(Answer::Truth(truth)))
}
