//! How an object's attribute is read.
#![tactic(auto, unfolding(crate::specs::Say::attribute_say))]

ghost use Rattle.proto_attr.specs.Below.{Err, IfOk, AllHold, of_attribute_task, of_ended, of_step, Leaves, spelled};
ghost use Rattle.std.specs.Prelude.{◌≡◌};
ghost use Rattle.py_node.specs.declared.task.AttributeTask.TheVariants as attribute;
ghost use Rattle.proto_attr.specs.declared.AttributeKept.TheVariants as kept;
ghost use Rattle.proto_attr.specs.Say.{get_by_method};
ghost use Rattle.proto_attr.specs.Rows.{Begins, Starts, Resumes, of_attribute_kept};

use crate::AttributeKept;
use crate::named::by_name;
use crate::set_attr::asked;
use class_world::World;
use py_node::{
    Answer, AttributeTask, DescriptorTask, Kind, Known, NativeEntry, OutOfMemory, PyObjectRef,
    PyStrInterned, Raised, SlotEntry, SlotId, Step, SuperNative, Task, TypeNative,
};

// An object's attribute is read as its class's entry for that says.
pub(crate) fn get_attr(
    world: &mut World,
    o: PyObjectRef,
    name: PyStrInterned,
) -> Result<Step<AttributeKept>, OutOfMemory>
    requires { AllHold world.old (of_attribute_task (attribute.GetAttr o name)) }
    ensures goes { IfOk result (λ step. Begins (attribute.GetAttr o name) world.old world.new step) }
    ensures safe { Leaves of_attribute_kept world.old world.new result }
{
    match world.slot(o, SlotId::Getattro) {
        Some(SlotEntry::Wrapper(_)) => get_by_method(world, o, name),
        Some(SlotEntry::Native(NativeEntry::OfType(TypeNative::GetAttribute))) => {
            match world.class_number(o) {
                None => Ok(asked(AttributeTask::Generic(o, name))),
                Some(class) => Ok(asked(AttributeTask::TypeGet(class, name))),
            }
        }
        Some(SlotEntry::Native(NativeEntry::OfSuper(SuperNative::GetAttribute))) => {
            let task = DescriptorTask::SuperGet(o, name);
            Ok(Step::Ask(Task::Descriptor(task), AttributeKept::Pass))
        }
        _ => Ok(asked(AttributeTask::Generic(o, name))),
    }
}

// Whether an object has an attribute that isn't None: the attribute is read.
pub(crate) fn has_attr(o: PyObjectRef, name: PyStrInterned) -> Step<AttributeKept>
    ensures goes { (w : World) → Begins (attribute.HasAttr o name) w w result }
    ensures safe { (w : World) → AllHold w (of_attribute_task (attribute.HasAttr o name)) →
        AllHold w (of_step of_attribute_kept result) }
{
    let task = AttributeTask::GetAttr(o, name);
    Step::Ask(Task::Attribute(task), AttributeKept::HasAttr)
}

// A special method reads the attribute.
fn get_by_method(
    world: &mut World,
    o: PyObjectRef,
    name: PyStrInterned,
) -> Result<Step<AttributeKept>, OutOfMemory>
    requires { AllHold world.old (of_attribute_task (attribute.GetAttr o name)) }
    ensures goes { IfOk result (λ step. Starts (attribute.GetAttr o name)
        (λ t w. get_by_method w o (spelled t name)) world.old world.new step) }
    ensures safe { Leaves of_attribute_kept world.old world.new result }
{
    let method = world.known(Known::GetAttribute);
    let task = by_name(world, o, method, name)?;
    Ok(Step::Ask(task, AttributeKept::GetAttr(o, name)))
}

// What a special method that reads attributes answered. Where it found none, `__getattr__` is asked.
pub(crate) fn or_get_attr(
    world: &mut World,
    o: PyObjectRef,
    name: PyStrInterned,
    answer: Result<Answer, Raised>,
) -> Result<Step<AttributeKept>, OutOfMemory>
    requires kept { AllHold world.old (of_attribute_kept (kept.GetAttr o name)) }
    requires answer { AllHold world.old (of_ended answer) }
    ensures goes { IfOk result (λ step. Resumes (kept.GetAttr o name) answer world.old world.new step) }
    ensures safe { Leaves of_attribute_kept world.old world.new result }
{
    match answer {
        Ok(answer) => Ok(Step::End(Ok(answer))),
        Err(fault) => match fault.kind {
            Kind::AttributeError => by_get_attr(world, o, name, fault),
            _ => Ok(Step::End(Err(fault))),
        },
    }
}

// `__getattr__` is asked, where the object's class has it.
fn by_get_attr(
    world: &mut World,
    o: PyObjectRef,
    name: PyStrInterned,
    fault: Raised,
) -> Result<Step<AttributeKept>, OutOfMemory>
    requires kept { AllHold world.old (of_attribute_kept (kept.GetAttr o name)) }
    requires kind { fault.kind ≡ Kind.AttributeError }
    ensures goes { IfOk result (λ step. Resumes (kept.GetAttr o name) (Err fault) world.old world.new step) }
    ensures safe { Leaves of_attribute_kept world.old world.new result }
{
    let method = world.known(Known::GetAttr);
    match world.special(o, method) {
        None => Ok(Step::End(Err(fault))),
        Some(_) => {
            let task = by_name(world, o, method, name)?;
            Ok(Step::Ask(task, AttributeKept::Pass))
        }
    }
}
