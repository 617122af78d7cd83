//! What a task finds first is found before it begins, so that it is kept for all that look it up after.

ghost use Rattle.vm_eval.specs.Below.{IfOk, of_attribute_task, Leaves, AllHold, Begins, of_attribute_kept};
ghost use Rattle.std.specs.Prelude.{◌≡◌};

use class_world::World;
use proto_attr::AttributeKept;
use py_node::{AttributeTask, OutOfMemory, Step};

// Finds what a task on an attribute reads of a class, and keeps it until a class changes. Nothing else changes, so that
// the task does what it would have done.
fn find_first(world: &mut World, task: &AttributeTask)
    requires { AllHold world.old (of_attribute_task task.now) }
    ensures { world.new ≡ world.old }
{
    match task {
        AttributeTask::Generic(o, name) => world.find_special(*o, *name),
        AttributeTask::GenericOpt(o, name, _) => world.find_special(*o, *name),
        AttributeTask::GenericSet(o, name, _) => world.find_special(*o, *name),
        AttributeTask::LoadMethod(o, name) => world.find_special(*o, *name),
        AttributeTask::Special(o, name, _, _) => world.find_special(*o, *name),
        AttributeTask::TypeGet(class, name) => world.find_class_attr(*class, *name),
        _ => {}
    }
}

// The first step of a task on an attribute.
pub(crate) fn begin(
    world: &mut World,
    task: AttributeTask,
) -> Result<Step<AttributeKept>, OutOfMemory>
    requires { AllHold world.old (of_attribute_task task) }
    ensures goes { IfOk result (λ step. Begins task world.old world.new step) }
    ensures safe { Leaves of_attribute_kept world.old world.new result }
{
    find_first(world, &task);
    proto_attr::begin(world, task)
}
