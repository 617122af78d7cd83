//! Special methods that are given a name as a new text.
#![tactic(auto, unfolding(py_node::specs::BuiltIns::place_of))]

ghost use Rattle.proto_attr.specs.Below.{IfOk, OnOk, of_task, Reading, Reads, plain, spelled, task_of, AllHold, Grows, Holds, IsName, IsNode};
ghost use Rattle.std.specs.Prelude.{◌≡◌};
ghost use Rattle.proto_attr.specs.Say.{with_text, by_name};

use class_world::World;
use class_world::args::alone;
use py_node::{AttributeTask, BuiltIn, OutOfMemory, Payload, PyObjectRef, PyStrInterned, Task};

// The call of an object's special method with a name.
pub(crate) fn by_name(
    world: &mut World,
    o: PyObjectRef,
    method: PyStrInterned,
    name: PyStrInterned,
) -> Result<Task, OutOfMemory>
    requires object { Holds world.old (IsNode o) }
    requires method { Holds world.old (IsName method) }
    requires name { Holds world.old (IsName name) }
    ensures task { IfOk result (λ task. (t : Reading) → Reads t world.new →
        task_of t task ≡ by_name (plain t world.old) o (spelled t method)) }
    ensures made { OnOk result ((t : Reading) → Reads t world.new →
        plain t world.new ≡ with_text (plain t world.old) (spelled t name)) }
    ensures reads { (t : Reading) → Reads t world.new → Reads t world.old }
    ensures grows { Grows world.old world.new }
    ensures holds { IfOk result (λ task. AllHold world.new (of_task task)) }
{
    let alloc = world.alloc();
    let text = world.spelling(name)?;
    let class = world.built_in(BuiltIn::Str);
    let node = world.make_node(class, Payload::Text(text))?;
    let args = alone(alloc, node)?;
    let task = AttributeTask::Special(o, method, args, Vec::new(alloc));
    Ok(Task::Attribute(task))
}
