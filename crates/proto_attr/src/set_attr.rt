//! How attributes are set and taken out.
#![tactic(auto, unfolding(crate::specs::Say::attribute_say, py_node::specs::BuiltIns::place_of))]

ghost use Rattle.proto_attr.specs.Below.{Some, IfOk, is_heap_at, AllHold, of_option, of_node_ref, of_attribute_task, Leaves, Reading, Reads, plain, spelled, setter_value};
ghost use Rattle.std.specs.Prelude.{◌≡◌};
ghost use Rattle.class_model.specs.Class.{class_at as class_numbered};
ghost use Rattle.py_node.specs.declared.task.AttributeTask.TheVariants as attribute;
ghost use Rattle.proto_attr.specs.Say.{set_by_method, setter, own_set};
ghost use Rattle.proto_attr.specs.Rows.{Begins, Starts, of_attribute_kept};

use crate::AttributeKept;
use crate::generic::no_attribute;
use class_table::ClassFault;
use class_world::World;
use class_world::args::{alone, both};
use py_node::{
    Answer, AttributeTask, BuiltIn, Cause, DescriptorTask, Known, NativeEntry, OutOfMemory,
    Payload, PyObjectRef, PySetterValue, PyStrInterned, PyTypeRef, SlotEntry, SlotId, Step, Task,
    TypeNative,
};

// An object's attribute is set or taken out, as its class's entry for that says.
pub(crate) fn set_attr(
    world: &mut World,
    o: PyObjectRef,
    name: PyStrInterned,
    value: PySetterValue,
) -> Result<Step<AttributeKept>, OutOfMemory>
    requires { AllHold world.old (of_attribute_task (attribute.SetAttr o name value)) }
    ensures goes { IfOk result (λ step. Begins (attribute.SetAttr o name value) world.old world.new step) }
    ensures safe { Leaves of_attribute_kept world.old world.new result }
{
    match world.slot(o, SlotId::Setattro) {
        Some(SlotEntry::Wrapper(_)) => set_by_method(world, o, name, value),
        Some(SlotEntry::Native(NativeEntry::OfType(TypeNative::SetAttr))) => {
            match world.class_number(o) {
                None => Ok(asked(AttributeTask::GenericSet(o, name, value))),
                Some(class) => Ok(asked(AttributeTask::TypeSet(class, name, value))),
            }
        }
        _ => Ok(asked(AttributeTask::GenericSet(o, name, value))),
    }
}

// A task is asked, and its answer passed on.
pub(crate) fn asked(task: AttributeTask) -> Step<AttributeKept>
    ensures { result ≡ Step.Ask (Task.Attribute task) AttributeKept.Pass }
{
    Step::Ask(Task::Attribute(task), AttributeKept::Pass)
}

// A special method sets the attribute or takes it out. It is given the name as a new text.
fn set_by_method(
    world: &mut World,
    o: PyObjectRef,
    name: PyStrInterned,
    value: PySetterValue,
) -> Result<Step<AttributeKept>, OutOfMemory>
    requires { AllHold world.old (of_attribute_task (attribute.SetAttr o name value)) }
    ensures goes { IfOk result (λ step. Starts (attribute.SetAttr o name value)
        (λ t w. set_by_method w o (spelled t name) (setter_value value)) world.old world.new step) }
    ensures safe { Leaves of_attribute_kept world.old world.new result }
{
    let alloc = world.alloc();
    let text = world.spelling(name)?;
    let class = world.built_in(BuiltIn::Str);
    let node = world.make_node(class, Payload::Text(text))?;
    match value {
        PySetterValue::Assign(value) => {
            let method = world.known(Known::SetAttr);
            let args = both(alloc, node, value)?;
            Ok(asked(AttributeTask::Special(o, method, args, Vec::new(alloc))))
        }
        PySetterValue::Delete => {
            let method = world.known(Known::DelAttr);
            let args = alone(alloc, node)?;
            Ok(asked(AttributeTask::Special(o, method, args, Vec::new(alloc))))
        }
    }
}

// A class's attribute is set or taken out by what its metaclass has under the name, or else in the class
// itself.
pub(crate) fn type_set(
    world: &mut World,
    class: PyTypeRef,
    name: PyStrInterned,
    value: PySetterValue,
) -> Result<Step<AttributeKept>, OutOfMemory>
    requires { AllHold world.old (of_attribute_task (attribute.TypeSet class name value)) }
    ensures goes { IfOk result (λ step. Begins (attribute.TypeSet class name value) world.old world.new step) }
    ensures safe { Leaves of_attribute_kept world.old world.new result }
{
    let object = world.class_object(class);
    let found = world.special(object, name);
    match setter(world, found) {
        Some(setter) => {
            let task = DescriptorTask::DescrSet(setter, object, value);
            Ok(Step::Ask(Task::Descriptor(task), AttributeKept::Pass))
        }
        None => own_set(world, class, name, value),
    }
}

// A class's own attribute is set or taken out. The class must be made by a script.
fn own_set(
    world: &mut World,
    class: PyTypeRef,
    name: PyStrInterned,
    value: PySetterValue,
) -> Result<Step<AttributeKept>, OutOfMemory>
    requires { AllHold world.old (of_attribute_task (attribute.TypeSet class name value)) }
    ensures goes { IfOk result (λ step. Starts (attribute.TypeSet class name value)
        (λ t w. own_set w (is_heap_at (class_numbered w.classes class.0)) class.0 (spelled t name) (setter_value value))
        world.old world.new step) }
    ensures safe { Leaves of_attribute_kept world.old world.new result }
{
    match value {
        PySetterValue::Assign(value) => match world.set_attr(class, name, value) {
            Ok(()) => Ok(Step::End(Ok(Answer::Done))),
            Err(ClassFault::Refused(_)) => Ok(Step::raise(Cause::ImmutableType)),
            Err(ClassFault::RefusedAt(_, _)) => unreachable!(),
            Err(ClassFault::OutOfMemory) => Err(OutOfMemory),
        },
        PySetterValue::Delete => match world.del_attr_direct(class, name) {
            Ok(true) => Ok(Step::End(Ok(Answer::Done))),
            Ok(false) => Ok(no_attribute()),
            Err(ClassFault::Refused(_)) => Ok(Step::raise(Cause::ImmutableType)),
            Err(ClassFault::RefusedAt(_, _)) => unreachable!(),
            Err(ClassFault::OutOfMemory) => Err(OutOfMemory),
        },
    }
}

// A value that was found, where it is one that sets attributes.
pub(crate) fn setter(world: &World, found: Option<PyObjectRef>) -> Option<PyObjectRef>
    requires { AllHold world.now (of_option of_node_ref found) }
    ensures setter { (t : Reading) → Reads t world.now → setter (plain t world.now) found ≡ result }
    ensures node { AllHold world.now (of_option of_node_ref result) }
{
    match found {
        None => None,
        Some(value) => match world.slot(value, SlotId::DescrSet) {
            None => None,
            Some(_) => Some(value),
        },
    }
}
