//! How special methods are called.
#![tactic(auto, unfolding(crate::specs::Say::attribute_say))]

ghost use Rattle.proto_attr.specs.Below.{IfOk, AllHold, Holds, IsNode, AreNodes, of_attribute_task, of_step};
ghost use Rattle.std.specs.Prelude.{◌≡◌, ◌∷◌};
ghost use Rattle.py_node.specs.declared.task.AttributeTask.TheVariants as attribute;
ghost use Rattle.proto_attr.specs.Rows.{Begins, of_attribute_kept};

use crate::AttributeKept;
use class_world::World;
use class_world::args::with_first;
use py_node::task::{Args, Keywords};
use py_node::{
    AttributeTask, CallTask, Cause, OutOfMemory, PyObjectRef, PyStrInterned, Step, Task,
};
use std::alloc::Global;

// The special method of a name is called: one that is fast with its object before the arguments, and
// another one is bound first.
pub(crate) fn special(
    world: &World,
    o: PyObjectRef,
    name: PyStrInterned,
    args: Args,
    kw: Keywords,
) -> Result<Step<AttributeKept>, OutOfMemory>
    requires { AllHold world.now (of_attribute_task (attribute.Special o name args kw)) }
    ensures goes { IfOk result (λ step. Begins (attribute.Special o name args kw) world.now world.now step) }
    ensures safe { IfOk result (λ step. AllHold world.now (of_step of_attribute_kept step)) }
{
    let alloc = world.alloc();
    let Some(method) = world.special(o, name) else {
        return Ok(Step::raise(Cause::NoSpecial));
    };
    if world.is_fast(method) {
        let all = bound(alloc, o, &args)?;
        let task = CallTask::Call(method, all, kw);
        Ok(Step::Ask(Task::Call(task), AttributeKept::Pass))
    } else {
        let class = world.type_object(o);
        let task = AttributeTask::Bind(method, Some(o), class);
        Ok(Step::Ask(Task::Attribute(task), AttributeKept::AfterBind(args, kw)))
    }
}

// The arguments with an object before them.
pub(crate) fn bound(
    alloc: Global,
    object: PyObjectRef,
    args: &[PyObjectRef],
) -> Result<Args, OutOfMemory>
    ensures items { IfOk result (λ v. v.items ≡ object ∷ args.now) }
    ensures holds { IfOk result (λ v. (w : World) → Holds w (IsNode object) → Holds w (AreNodes args.now) →
        Holds w (AreNodes v.items)) }
{
    let all = with_first(alloc, object, args)?;
    Ok(all)
}
