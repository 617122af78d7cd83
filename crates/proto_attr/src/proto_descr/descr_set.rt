//! What descriptors set, or take out.
#![tactic(auto, unfolding(crate::specs::ProtoDescr::Say::descriptor_say))]

ghost use Rattle.proto_attr.specs.Below.{[], IfOk, native_task, datum_at, slot_at, DescrSet, of_descriptor_task, of_setter, of_step, of_task, Leaves, Held, Reading, setter_value, task_of, AllHold, AreNodes, Holds, IsNode};
ghost use Rattle.std.specs.Prelude.{◌≡◌, ◌∷◌};
ghost use Rattle.py_node.specs.declared.task.DescriptorTask.TheVariants as descriptor;
ghost use Rattle.proto_attr.specs.ProtoDescr.Members.{with_value};
ghost use Rattle.proto_attr.specs.ProtoDescr.Say.{descr_set_by, getset_set, set_by_method};
ghost use Rattle.proto_attr.specs.ProtoDescr.Rows.{Begins, StepsAs, closed, nothing_held, of_descriptor_kept};

use crate::proto_descr::DescriptorKept;
use crate::proto_descr::member::member_set;
use crate::proto_descr::property::property_set;
use class_world::World;
use class_world::args::{alone, both};
use class_world::natives::native_task;
use py_node::task::Args;
use py_node::{
    AttributeTask, Cause, DescriptorNative, Known, NativeEntry, OutOfMemory, Payload,
    PropertyNative, PyObjectRef, PySetterValue, SlotEntry, SlotId, Step, Task,
};
use std::alloc::Global;

// What a descriptor stands for in an object is set, or taken out. Whatever was asked gives counts for nothing.
pub(crate) fn descr_set(
    world: &mut World,
    m: PyObjectRef,
    o: PyObjectRef,
    value: PySetterValue,
) -> Result<Step<DescriptorKept>, OutOfMemory>
    requires { AllHold world.old (of_descriptor_task (descriptor.DescrSet m o value)) }
    ensures goes { IfOk result (λ step. Begins (descriptor.DescrSet m o value) world.old world.new step) }
    ensures safe { Leaves of_descriptor_kept world.old world.new result }
{
    let step = set_as(world, m, o, value)?;
    Ok(closed(step))
}

// It is set as its class's entry for that says.
fn set_as(
    world: &mut World,
    m: PyObjectRef,
    o: PyObjectRef,
    value: PySetterValue,
) -> Result<Step<()>, OutOfMemory>
    requires { AllHold world.old (IsNode m ∷ IsNode o ∷ of_setter value) }
    ensures steps { IfOk result (λ step. StepsAs
        (λ t w. descr_set_by w (slot_at w m DescrSet) m o (setter_value value)) world.old world.new step) }
    ensures safe { Leaves nothing_held world.old world.new result }
{
    match world.slot(m, SlotId::DescrSet) {
        Some(SlotEntry::Wrapper(_)) => set_by_method(world, m, o, value),
        Some(SlotEntry::Native(NativeEntry::OfDescriptor(DescriptorNative::GetSetSet))) => {
            getset_set(world, m, o, value)
        }
        Some(SlotEntry::Native(NativeEntry::OfDescriptor(DescriptorNative::MemberSet))) => {
            member_set(world, m, o, value)
        }
        Some(SlotEntry::Native(NativeEntry::OfProperty(PropertyNative::Set))) => {
            property_set(world, m, o, value)
        }
        _ => Ok(Step::raise(Cause::NoSetter)),
    }
}

// A special method sets it, or another one takes it out.
fn set_by_method(
    world: &World,
    m: PyObjectRef,
    o: PyObjectRef,
    value: PySetterValue,
) -> Result<Step<()>, OutOfMemory>
    requires { AllHold world.now (IsNode m ∷ IsNode o ∷ of_setter value) }
    ensures steps { IfOk result (λ step. StepsAs (λ t w. set_by_method w m o (setter_value value))
        world.now world.now step) }
    ensures safe { Leaves nothing_held world.now world.now result }
{
    let alloc = world.alloc();
    let args = with_value(alloc, o, value)?;
    let method = match value {
        PySetterValue::Assign(_) => world.known(Known::Set),
        PySetterValue::Delete => world.known(Known::Delete),
    };
    let task = AttributeTask::Special(m, method, args, Vec::new(alloc));
    Ok(Step::Ask(Task::Attribute(task), ()))
}

/// What sets an attribute of objects is asked with the object and the value, or with the object alone.
pub fn getset_set(
    world: &World,
    m: PyObjectRef,
    o: PyObjectRef,
    value: PySetterValue,
) -> Result<Step<()>, OutOfMemory>
    requires { AllHold world.now (IsNode m ∷ IsNode o ∷ of_setter value) }
    ensures steps { IfOk result (λ step. StepsAs (λ t w. getset_set w (datum_at w m) o (setter_value value))
        world.now world.now step) }
    ensures safe { Leaves nothing_held world.now world.now result }
{
    match world.payload(m) {
        Payload::GetSet(parts) => match parts.get().setter {
            None => Ok(Step::raise(Cause::NoSetter)),
            Some(native) => {
                let task = set_by_native(world, native, o, value)?;
                Ok(Step::Ask(task, ()))
            }
        },
        _ => Ok(Step::raise(Cause::NoSetter)),
    }
}

// A native that sets an attribute of objects.
pub(crate) fn set_by_native(
    world: &World,
    native: NativeEntry,
    o: PyObjectRef,
    value: PySetterValue,
) -> Result<Task, OutOfMemory>
    requires { AllHold world.now (IsNode o ∷ of_setter value) }
    ensures task { IfOk result (λ task. (t : Reading) → task_of t task ≡
        native_task native (with_value o (setter_value value)) []) }
    ensures holds { IfOk result (λ task. AllHold world.now (of_task task)) }
{
    let alloc = world.alloc();
    let args = with_value(alloc, o, value)?;
    Ok(native_task(native, args, Vec::new(alloc)))
}

// What it takes: the object, and the value if there is one.
fn with_value(alloc: Global, o: PyObjectRef, value: PySetterValue) -> Result<Args, OutOfMemory>
    ensures items { IfOk result (λ v. v.items ≡ with_value o (setter_value value)) }
    ensures holds { IfOk result (λ v. (w : Held) → Holds w (IsNode o) → AllHold w (of_setter value) →
        Holds w (AreNodes v.items)) }
{
    match value {
        PySetterValue::Assign(value) => both(alloc, o, value),
        PySetterValue::Delete => alone(alloc, o),
    }
}

// A step that ends as what is done, whatever it asked gave.
fn closed(step: Step<()>) -> Step<DescriptorKept>
    ensures step { result ≡ closed step }
    ensures says { of_step of_descriptor_kept result ≡ of_step nothing_held step }
{
    match step {
        Step::Ask(task, _) => Step::Ask(task, DescriptorKept::Done),
        Step::End(answer) => Step::End(answer),
    }
}
