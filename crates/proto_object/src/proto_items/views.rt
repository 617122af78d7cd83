//! A mapping's keys, values and items: a dict is listed at once, and another object by its method.
#![tactic(auto, unfolding(crate::specs::ProtoItems::Say::items_job_say, py_node::specs::BuiltIns::place_of))]

ghost use Rattle.proto_object.specs.Below.{IfOk, Ok, known_text, ToAttribute, DoLoadMethod, of_method, of_step, of_task, Leaves, Reading, Reads, task_of, AllHold, Holds, IsNode};
ghost use Rattle.std.specs.Prelude.{◌≡◌};
ghost use Rattle.py_node.specs.declared.protocol.ProtocolTask.TheVariants as protocol;
ghost use Rattle.py_node.specs.declared.task.Answer.TheVariants as answer;
ghost use Rattle.proto_object.specs.ProtoItems.Rows.{Begins, Resumes, of_items_kept};

use crate::proto_items::ItemsKept;
use class_world::World;
use py_node::{
    AttributeTask, BuiltIn, Known, OutOfMemory, PyMethod, PyObjectRef, Step, Task, caught,
};
use row_kit::entries::{keys_of, values_of};
use row_kit::give_containers::{new_list, new_pairs};
use row_kit::proto_base::is_exactly;
use row_kit::take_containers::entries;

/// The keys of a mapping.
pub(crate) fn begin_keys(world: &mut World, o: PyObjectRef) -> Result<Step<ItemsKept>, OutOfMemory>
    requires { Holds world.old (IsNode o) }
    ensures goes { IfOk result (λ step. Begins (protocol.Keys o) world.old world.new step) }
    ensures safe { Leaves of_items_kept world.old world.new result }
{
    if !is_exactly(world, o, BuiltIn::Dict) {
        return Ok(Step::Ask(load(world, o, Known::Keys), ItemsKept::Loaded));
    }
    let keys = keys_of(world.alloc(), entries(world, o))?;
    let ended = caught(new_list(world, keys))?;
    Ok(Step::End(ended))
}

/// The values of a mapping.
pub(crate) fn begin_values(
    world: &mut World,
    o: PyObjectRef,
) -> Result<Step<ItemsKept>, OutOfMemory>
    requires { Holds world.old (IsNode o) }
    ensures goes { IfOk result (λ step. Begins (protocol.Values o) world.old world.new step) }
    ensures safe { Leaves of_items_kept world.old world.new result }
{
    if !is_exactly(world, o, BuiltIn::Dict) {
        return Ok(Step::Ask(load(world, o, Known::Values), ItemsKept::Loaded));
    }
    let values = values_of(world.alloc(), entries(world, o))?;
    let ended = caught(new_list(world, values))?;
    Ok(Step::End(ended))
}

/// The items of a mapping: its keys with their values, as pairs.
pub(crate) fn begin_items(world: &mut World, o: PyObjectRef) -> Result<Step<ItemsKept>, OutOfMemory>
    requires { Holds world.old (IsNode o) }
    ensures goes { IfOk result (λ step. Begins (protocol.Items o) world.old world.new step) }
    ensures safe { Leaves of_items_kept world.old world.new result }
{
    if !is_exactly(world, o, BuiltIn::Dict) {
        return Ok(Step::Ask(load(world, o, Known::Items), ItemsKept::Loaded));
    }
    let ended = caught(new_pairs(world, o))?;
    Ok(Step::End(ended))
}

// An object's method of a name, to be called at once.
fn load(world: &World, o: PyObjectRef, name: Known) -> Task
    requires { Holds world.now (IsNode o) }
    ensures task { (t : Reading) → Reads t world.now → task_of t result ≡
        ToAttribute (DoLoadMethod o (known_text name)) }
    ensures holds { AllHold world.now (of_task result) }
{
    Task::Attribute(AttributeTask::LoadMethod(o, world.known(name)))
}

/// The method was loaded, and is called with nothing.
pub(crate) fn loaded(world: &World, method: PyMethod) -> Step<ItemsKept>
    requires { AllHold world.now (of_method method) }
    ensures goes { Resumes ItemsKept.Loaded (Ok (answer.Method method)) world.now world.now result }
    ensures safe { AllHold world.now (of_step of_items_kept result) }
{
    let alloc = world.alloc();
    let task = AttributeTask::Invoke(method, Vec::new(alloc), Vec::new(alloc));
    Step::Ask(Task::Attribute(task), ItemsKept::Invoked)
}
