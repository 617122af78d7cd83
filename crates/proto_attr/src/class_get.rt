//! How classes read attributes.
#![tactic(auto, unfolding(crate::specs::Say::attribute_say))]

ghost use Rattle.proto_attr.specs.Below.{AllHold, Holds, IsNode, of_attribute_task, of_step, class_object};
ghost use Rattle.py_node.specs.declared.task.AttributeTask.TheVariants as attribute;
ghost use Rattle.proto_attr.specs.Say.{of_class, generic_by, of_value};
ghost use Rattle.proto_attr.specs.Rows.{Begins, Starts, of_attribute_kept};

use crate::AttributeKept;
use crate::find::{gives, is_data};
use crate::generic::{descriptor_get, no_attribute};
use class_world::World;
use py_node::{Answer, DescriptorTask, PyObjectRef, PyStrInterned, PyTypeRef, Step, Task};

// A class's attribute: of a data descriptor of its metaclass, or else of the class and those that it derives
// from, or else of its metaclass.
pub(crate) fn type_get(world: &World, class: PyTypeRef, name: PyStrInterned) -> Step<AttributeKept>
    requires { AllHold world.now (of_attribute_task (attribute.TypeGet class name)) }
    ensures goes { Begins (attribute.TypeGet class name) world.now world.now result }
    ensures safe { AllHold world.now (of_step of_attribute_kept result) }
{
    let object = world.class_object(class);
    let meta = world.special(object, name);
    let own = world.class_attr(class, name);
    match (meta, own) {
        (None, None) => no_attribute(),
        (None, Some(value)) => of_class(world, class, name, value),
        (Some(value), None) => of_metaclass(world, class, name, value),
        (Some(value), Some(own)) => {
            if is_data(world, value) {
                Step::Ask(descriptor_get(world, value, object), AttributeKept::Pass)
            } else {
                of_class(world, class, name, own)
            }
        }
    }
}

// What a class has gives its value with no object, where it gives one.
fn of_class(
    world: &World,
    class: PyTypeRef,
    name: PyStrInterned,
    value: PyObjectRef,
) -> Step<AttributeKept>
    requires task { AllHold world.now (of_attribute_task (attribute.TypeGet class name)) }
    requires value { Holds world.now (IsNode value) }
    ensures goes { Starts (attribute.TypeGet class name) (λ t w. of_class w class.0 value) world.now world.now result }
    ensures safe { AllHold world.now (of_step of_attribute_kept result) }
{
    if gives(world, value) {
        let object = world.class_object(class);
        let task = DescriptorTask::DescrGet(value, None, Some(object));
        Step::Ask(Task::Descriptor(task), AttributeKept::Pass)
    } else {
        Step::End(Ok(Answer::Value(value)))
    }
}

// What a metaclass has gives its value for the class, where it gives one.
fn of_metaclass(
    world: &World,
    class: PyTypeRef,
    name: PyStrInterned,
    value: PyObjectRef,
) -> Step<AttributeKept>
    requires task { AllHold world.now (of_attribute_task (attribute.TypeGet class name)) }
    requires value { Holds world.now (IsNode value) }
    ensures goes { Starts (attribute.TypeGet class name)
        (λ t w. generic_by w (class_object w class.0) (of_value w value)) world.now world.now result }
    ensures safe { AllHold world.now (of_step of_attribute_kept result) }
{
    if gives(world, value) {
        let object = world.class_object(class);
        Step::Ask(descriptor_get(world, value, object), AttributeKept::Pass)
    } else {
        Step::End(Ok(Answer::Value(value)))
    }
}
