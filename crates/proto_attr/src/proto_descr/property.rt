//! What properties read and set.
#![tactic(auto, unfolding(crate::specs::ProtoDescr::Say::descriptor_say))]

ghost use Rattle.proto_attr.specs.Below.{IfOk, datum_at, of_descriptor_task, of_setter, of_step, Leaves, setter_value, AllHold, AreNodes, Holds, IsNode, of_option, of_node_ref};
ghost use Rattle.std.specs.Prelude.{◌∷◌};
ghost use Rattle.py_node.specs.declared.task.DescriptorTask.TheVariants as descriptor;
ghost use Rattle.proto_attr.specs.ProtoDescr.Properties.{call_part, property_get, property_set};
ghost use Rattle.proto_attr.specs.ProtoDescr.Rows.{Starts, StepsAs, nothing_held, of_descriptor_kept};

use crate::proto_descr::DescriptorKept;
use crate::proto_descr::wrapped::passed;
use class_world::args::{alone, both};
use class_world::{Fixed, World};
use py_node::task::Args;
use py_node::{
    Answer, CallTask, Cause, OutOfMemory, Payload, PyObjectRef, PySetterValue, Step, Task,
};

// What a property gives for an object.
pub(crate) fn get_of_property(
    world: &World,
    m: PyObjectRef,
    o: Option<PyObjectRef>,
    class: Option<PyObjectRef>,
) -> Result<Step<DescriptorKept>, OutOfMemory>
    requires { AllHold world.now (of_descriptor_task (descriptor.DescrGet m o class)) }
    ensures goes { IfOk result (λ step. Starts (descriptor.DescrGet m o class)
        (λ t w. property_get w (datum_at w m) m o) world.now world.now step) }
    ensures safe { Leaves of_descriptor_kept world.now world.now result }
{
    let step = property_get(world, m, o)?;
    Ok(passed(step))
}

/// The getter of a property is called with the object. Without one, or for None, it gives itself.
pub fn property_get(
    world: &World,
    m: PyObjectRef,
    o: Option<PyObjectRef>,
) -> Result<Step<()>, OutOfMemory>
    requires { AllHold world.now (IsNode m ∷ of_option of_node_ref o) }
    ensures steps { IfOk result (λ step. StepsAs (λ t w. property_get w (datum_at w m) m o)
        world.now world.now step) }
    ensures safe { Leaves nothing_held world.now world.now result }
{
    match (world.payload(m), o) {
        (Payload::Property(property), Some(object)) => {
            if object.0 == Fixed::None.node().0 {
                return Ok(Step::End(Ok(Answer::Value(m))));
            }
            let args = alone(world.alloc(), object)?;
            Ok(call_part(world, property.fget, Cause::NoGetter, args))
        }
        _ => Ok(Step::End(Ok(Answer::Value(m)))),
    }
}

/// The setter of a property is called with the object and the value, or its deleter with the object alone.
pub fn property_set(
    world: &World,
    m: PyObjectRef,
    o: PyObjectRef,
    value: PySetterValue,
) -> Result<Step<()>, OutOfMemory>
    requires { AllHold world.now (IsNode m ∷ IsNode o ∷ of_setter value) }
    ensures steps { IfOk result (λ step. StepsAs (λ t w. property_set w (datum_at w m) o (setter_value value))
        world.now world.now step) }
    ensures safe { Leaves nothing_held world.now world.now result }
{
    match world.payload(m) {
        Payload::Property(property) => match value {
            PySetterValue::Assign(value) => {
                let args = both(world.alloc(), o, value)?;
                Ok(call_part(world, property.fset, Cause::NoSetter, args))
            }
            PySetterValue::Delete => {
                let args = alone(world.alloc(), o)?;
                Ok(call_part(world, property.fdel, Cause::NoDeleter, args))
            }
        },
        _ => Ok(Step::End(Ok(Answer::Done))),
    }
}

// A part of a property is called, where it is there.
fn call_part(world: &World, part: Option<PyObjectRef>, missing: Cause, args: Args) -> Step<()>
    requires part { AllHold world.now (of_option of_node_ref part) }
    requires args { Holds world.now (AreNodes args.items) }
    ensures steps { StepsAs (λ t w. call_part w part missing args.items) world.now world.now result }
    ensures safe { AllHold world.now (of_step nothing_held result) }
{
    match part {
        None => Step::raise(missing),
        Some(func) => {
            let task = CallTask::Call(func, args, Vec::new(world.alloc()));
            Step::Ask(Task::Call(task), ())
        }
    }
}
