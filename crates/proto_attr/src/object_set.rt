//! How objects set and take out attributes.
#![tactic(auto, unfolding(crate::specs::Say::attribute_say))]

ghost use Rattle.proto_attr.specs.Below.{IfOk, AllHold, of_attribute_task, Leaves, spelled, setter_value, dict_of, own_value};
ghost use Rattle.py_node.specs.declared.task.AttributeTask.TheVariants as attribute;
ghost use Rattle.proto_attr.specs.Say.{set_in_dict};
ghost use Rattle.proto_attr.specs.Rows.{Begins, Starts, of_attribute_kept};

use crate::AttributeKept;
use crate::generic::no_attribute;
use crate::set_attr::setter;
use class_world::World;
use class_world::limits::has_place;
use py_node::{
    Answer, Cause, DescriptorTask, OutOfMemory, PyObjectRef, PySetterValue, PyStrInterned, Step,
    Task,
};

// An object's attribute is set or taken out by what its class has under the name, or else in its dict.
pub(crate) fn generic_set(
    world: &mut World,
    o: PyObjectRef,
    name: PyStrInterned,
    value: PySetterValue,
) -> Result<Step<AttributeKept>, OutOfMemory>
    requires { AllHold world.old (of_attribute_task (attribute.GenericSet o name value)) }
    ensures goes { IfOk result (λ step. Begins (attribute.GenericSet o name value) world.old world.new step) }
    ensures safe { Leaves of_attribute_kept world.old world.new result }
{
    let found = world.special(o, name);
    match setter(world, found) {
        None => set_in_dict(world, o, name, value),
        Some(setter) => {
            let task = DescriptorTask::DescrSet(setter, o, value);
            Ok(Step::Ask(Task::Descriptor(task), AttributeKept::Pass))
        }
    }
}

// The object's dict gets the value, or loses the one that it has.
fn set_in_dict(
    world: &mut World,
    o: PyObjectRef,
    name: PyStrInterned,
    value: PySetterValue,
) -> Result<Step<AttributeKept>, OutOfMemory>
    requires { AllHold world.old (of_attribute_task (attribute.GenericSet o name value)) }
    ensures goes { IfOk result (λ step. Starts (attribute.GenericSet o name value)
        (λ t w. set_in_dict w (dict_of w o) (spelled t name) (setter_value value) (own_value w o (spelled t name)))
        world.old world.new step) }
    ensures safe { Leaves of_attribute_kept world.old world.new result }
{
    let Some(dict) = world.dict_of(o) else {
        return Ok(no_attribute());
    };
    match value {
        PySetterValue::Assign(value) => {
            if !has_place(world, dict, name) {
                return Ok(Step::raise(Cause::TooLong));
            }
            world.set_value_in(dict, name, value)?;
            Ok(Step::End(Ok(Answer::Done)))
        }
        PySetterValue::Delete => match world.own_value(o, name) {
            None => Ok(no_attribute()),
            Some(_) => {
                world.take_value_out(dict, name);
                Ok(Step::End(Ok(Answer::Done)))
            }
        },
    }
}
