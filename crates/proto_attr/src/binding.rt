//! How a value that was found is bound.
#![tactic(auto, unfolding(crate::specs::Say::attribute_say))]

ghost use Rattle.proto_attr.specs.Below.{AllHold, of_attribute_task, of_step};
ghost use Rattle.py_node.specs.declared.task.AttributeTask.TheVariants as attribute;
ghost use Rattle.proto_attr.specs.Rows.{Begins, of_attribute_kept};

use crate::AttributeKept;
use class_world::World;
use py_node::{Answer, DescriptorTask, PyObjectRef, SlotId, Step, Task};

// A value is bound where its class has an entry for that.
pub(crate) fn bind(
    world: &World,
    m: PyObjectRef,
    o: Option<PyObjectRef>,
    class: PyObjectRef,
) -> Step<AttributeKept>
    requires { AllHold world.now (of_attribute_task (attribute.Bind m o class)) }
    ensures goes { Begins (attribute.Bind m o class) world.now world.now result }
    ensures safe { AllHold world.now (of_step of_attribute_kept result) }
{
    match world.slot(m, SlotId::DescrGet) {
        None => Step::End(Ok(Answer::Value(m))),
        Some(_) => {
            let task = DescriptorTask::DescrGet(m, o, Some(class));
            Step::Ask(Task::Descriptor(task), AttributeKept::Pass)
        }
    }
}
