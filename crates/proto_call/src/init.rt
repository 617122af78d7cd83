//! The initialisation of an object.

ghost use Rattle.proto_call.specs.Below.{Ok, IfOk, AllHold, Holds, IsNode, of_args};
ghost use Rattle.std.specs.Prelude.{◌≡◌, ◌∷◌};
ghost use Rattle.py_node.specs.declared.task.CallTask.TheVariants as call;
ghost use Rattle.proto_call.specs.Rows.{Begins, Resumes, OpensNone, LeavesNone};

use crate::CallKept;
use crate::asked::special;
use class_world::natives::native_task;
use class_world::{Fixed, World};
use py_node::task::{Args, Keywords};
use py_node::{Answer, Cause, Known, OutOfMemory, PyObjectRef, SlotEntry, SlotId, Step};
use row_kit::called::bound;

/// An object is initialised as its class's entry for that says, if there is one: by a native, or by the
/// special method.
pub(crate) fn begin_init(
    world: &World,
    object: PyObjectRef,
    args: Args,
    kw: Keywords,
) -> Result<Step<CallKept>, OutOfMemory>
    requires { AllHold world.now (IsNode object ∷ of_args args.items kw.items) }
    ensures goes { IfOk result (λ step. Begins (call.Init object args kw) world.now world.now step) }
    ensures safe { LeavesNone world.now world.now result }
{
    let alloc = world.alloc();
    match world.slot(object, SlotId::Init) {
        Some(SlotEntry::Native(native)) => {
            let args = bound(alloc, object, args)?;
            Ok(Step::Ask(native_task(native, args, kw), CallKept::Pass))
        }
        Some(SlotEntry::Wrapper(_)) => {
            let task = special(world, object, Known::Init, args, kw);
            Ok(Step::Ask(task, CallKept::AfterSpecialInit))
        }
        _ => Ok(Step::End(Ok(Answer::Done))),
    }
}

/// The method that initialised an object must have given None.
pub(crate) fn resume_init(world: &World, given: PyObjectRef) -> Step<CallKept>
    requires { Holds world.now (IsNode given) }
    ensures goes { Resumes CallKept.AfterSpecialInit (Ok (Answer.Value given)) world.now world.now result }
    ensures safe { OpensNone world.now result }
{
    if given == world.fixed(Fixed::None) {
        Step::End(Ok(Answer::Value(given)))
    } else {
        Step::raise(Cause::InitNotNone)
    }
}
