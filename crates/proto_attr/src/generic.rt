//! How objects and classes read attributes.
#![tactic(auto, unfolding(crate::specs::Say::attribute_say))]

ghost use Rattle.proto_attr.specs.Below.{Some, Err, raised, AllHold, Holds, IsNode, of_option, of_node_ref, of_attribute_task, of_step, of_task, Reading, Reads, plain, task_of, type_object, ToDescriptor, DoDescrGet};
ghost use Rattle.std.specs.Prelude.{◌≡◌};
ghost use Rattle.py_node.specs.declared.task.AttributeTask.TheVariants as attribute;
ghost use Rattle.proto_attr.specs.Say.{value_for};
ghost use Rattle.proto_attr.specs.Rows.{Begins, of_attribute_kept};

use crate::AttributeKept;
use crate::find::{Found, find};
use class_world::World;
use py_node::{Answer, Cause, DescriptorTask, PyObjectRef, PyStrInterned, Step, Task};

// An object's attribute: of a data descriptor of its class, or else of its own dict, or else of its class.
pub(crate) fn generic(world: &World, o: PyObjectRef, name: PyStrInterned) -> Step<AttributeKept>
    requires { AllHold world.now (of_attribute_task (attribute.Generic o name)) }
    ensures goes { Begins (attribute.Generic o name) world.now world.now result }
    ensures safe { AllHold world.now (of_step of_attribute_kept result) }
{
    let class = world.special(o, name);
    let own = world.own_value(o, name);
    match find(world, class, own) {
        Found::Descriptor(value) => Step::Ask(descriptor_get(world, value, o), AttributeKept::Pass),
        Found::Value(value) => Step::End(Ok(Answer::Value(value))),
        Found::Missing => no_attribute(),
    }
}

// The same from another dict, if there is one. That nothing is found is an answer.
pub(crate) fn generic_opt(
    world: &World,
    o: PyObjectRef,
    name: PyStrInterned,
    dict: Option<PyObjectRef>,
) -> Step<AttributeKept>
    requires { AllHold world.now (of_attribute_task (attribute.GenericOpt o name dict)) }
    ensures goes { Begins (attribute.GenericOpt o name dict) world.now world.now result }
    ensures safe { AllHold world.now (of_step of_attribute_kept result) }
{
    let class = world.special(o, name);
    let own = value_for(world, o, name, dict);
    match find(world, class, own) {
        Found::Descriptor(value) => Step::Ask(
            descriptor_get(world, value, o),
            AttributeKept::Maybe,
        ),
        Found::Value(value) => Step::End(Ok(Answer::Maybe(Some(value)))),
        Found::Missing => Step::End(Ok(Answer::Maybe(None))),
    }
}

// The value of a name in the dict that is given, or else in the object's own.
fn value_for(
    world: &World,
    o: PyObjectRef,
    name: PyStrInterned,
    dict: Option<PyObjectRef>,
) -> Option<PyObjectRef>
    requires { AllHold world.now (of_attribute_task (attribute.GenericOpt o name dict)) }
    ensures value { (t : Reading) → Reads t world.now →
        value_for (plain t world.now) o (t.text name.0) dict ≡ result }
    ensures node { AllHold world.now (of_option of_node_ref result) }
{
    match dict {
        None => world.own_value(o, name),
        Some(dict) => world.value_in(dict, name),
    }
}

// A descriptor is asked for what it gives for an object.
pub(crate) fn descriptor_get(world: &World, value: PyObjectRef, o: PyObjectRef) -> Task
    requires value { Holds world.now (IsNode value) }
    requires object { Holds world.now (IsNode o) }
    ensures task { (t : Reading) →
        task_of t result ≡ ToDescriptor (DoDescrGet value (Some o) (Some (type_object (plain t world.now) o))) }
    ensures holds { AllHold world.now (of_task result) }
{
    let class = world.type_object(o);
    Task::Descriptor(DescriptorTask::DescrGet(value, Some(o), Some(class)))
}

// There is no such attribute.
pub(crate) fn no_attribute() -> Step<AttributeKept>
    ensures { result ≡ Step.End (Err (raised Cause.NoAttribute)) }
{
    Step::raise(Cause::NoAttribute)
}
