//! How methods are loaded, and called.
#![tactic(auto, unfolding(crate::specs::Say::attribute_say))]

ghost use Rattle.proto_attr.specs.Below.{Ok, IfOk, AllHold, Holds, IsNode, of_option, of_node_ref, of_attribute_task, of_answer, of_step, spelled, answer_of, Held, PlainWorld, Ends, special_at, own_value};
ghost use Rattle.std.specs.Prelude.{◌≡◌};
ghost use Rattle.py_node.specs.declared.task.AttributeTask.TheVariants as attribute;
ghost use Rattle.proto_attr.specs.Say.{load_by, load_found, load_fast};
ghost use Rattle.proto_attr.specs.Rows.{Begins, Starts, of_attribute_kept, of_found};

use crate::AttributeKept;
use crate::find::{Found, find};
use crate::generic::{descriptor_get, no_attribute};
use crate::special::bound;
use class_world::World;
use py_node::task::{Args, Keywords};
use py_node::{
    Answer, AttributeTask, CallTask, NativeEntry, ObjectNative, OutOfMemory, PyMethod, PyObjectRef,
    PyStrInterned, SlotEntry, SlotId, Step, Task,
};

// A method is loaded to be called at once. Where its class reads attributes in its own way, it is what the
// attribute gives.
pub(crate) fn load_method(world: &World, o: PyObjectRef, name: PyStrInterned) -> Step<AttributeKept>
    requires { AllHold world.now (of_attribute_task (attribute.LoadMethod o name)) }
    ensures goes { Begins (attribute.LoadMethod o name) world.now world.now result }
    ensures safe { AllHold world.now (of_step of_attribute_kept result) }
{
    match world.slot(o, SlotId::Getattro) {
        Some(SlotEntry::Native(NativeEntry::OfObject(ObjectNative::GetAttribute))) => {
            load_by(world, o, name)
        }
        _ => {
            let task = AttributeTask::GetAttr(o, name);
            Step::Ask(Task::Attribute(task), AttributeKept::Method)
        }
    }
}

// A method that is fast comes with its object, unless the object's dict has the name.
fn load_by(world: &World, o: PyObjectRef, name: PyStrInterned) -> Step<AttributeKept>
    requires { AllHold world.now (of_attribute_task (attribute.LoadMethod o name)) }
    ensures goes { Starts (attribute.LoadMethod o name)
        (λ t w. load_by w o (special_at w o (spelled t name)) (own_value w o (spelled t name)))
        world.now world.now result }
    ensures safe { AllHold world.now (of_step of_attribute_kept result) }
{
    let class = world.special(o, name);
    let own = world.own_value(o, name);
    match class {
        None => load_found(world, o, name, find(world, class, own)),
        Some(func) => {
            if world.is_fast(func) {
                Step::End(Ok(load_fast(o, func, own)))
            } else {
                load_found(world, o, name, find(world, class, own))
            }
        }
    }
}

// What is loaded of a method that is fast.
fn load_fast(o: PyObjectRef, func: PyObjectRef, own: Option<PyObjectRef>) -> Answer
    ensures answer { (w : PlainWorld) → load_fast w o func own ≡ Ends w (Ok (answer_of result)) }
    ensures holds { (w : Held) → Holds w (IsNode o) → Holds w (IsNode func) →
        AllHold w (of_option of_node_ref own) → AllHold w (of_answer result) }
{
    match own {
        None => Answer::Method(PyMethod::Function { target: o, func }),
        Some(value) => Answer::Method(PyMethod::Attribute(value)),
    }
}

// What is loaded of what was found.
fn load_found(
    world: &World,
    o: PyObjectRef,
    name: PyStrInterned,
    found: Found,
) -> Step<AttributeKept>
    requires task { AllHold world.now (of_attribute_task (attribute.LoadMethod o name)) }
    requires found { AllHold world.now (of_found found) }
    ensures goes { Starts (attribute.LoadMethod o name) (λ t w. load_found w o found) world.now world.now result }
    ensures safe { AllHold world.now (of_step of_attribute_kept result) }
{
    match found {
        Found::Descriptor(value) => Step::Ask(
            descriptor_get(world, value, o),
            AttributeKept::Method,
        ),
        Found::Value(value) => Step::End(Ok(Answer::Method(PyMethod::Attribute(value)))),
        Found::Missing => no_attribute(),
    }
}

// A method that was loaded is called.
pub(crate) fn invoke(
    world: &World,
    method: PyMethod,
    args: Args,
    kw: Keywords,
) -> Result<Step<AttributeKept>, OutOfMemory>
    requires { AllHold world.now (of_attribute_task (attribute.Invoke method args kw)) }
    ensures goes { IfOk result (λ step. Begins (attribute.Invoke method args kw) world.now world.now step) }
    ensures safe { IfOk result (λ step. AllHold world.now (of_step of_attribute_kept step)) }
{
    let alloc = world.alloc();
    match method {
        PyMethod::Function { target, func } => {
            let all = bound(alloc, target, &args)?;
            Ok(Step::Ask(
                Task::Call(CallTask::Call(func, all, kw)),
                AttributeKept::Pass,
            ))
        }
        PyMethod::Attribute(func) => {
            Ok(Step::Ask(
                Task::Call(CallTask::Call(func, args, kw)),
                AttributeKept::Pass,
            ))
        }
    }
}
