//! The call of an object.

ghost use Rattle.proto_call.specs.Below.{IfOk, AllHold, IsNode, of_args};
ghost use Rattle.std.specs.Prelude.{◌∷◌};
ghost use Rattle.py_node.specs.declared.task.CallTask.TheVariants as call;
ghost use Rattle.proto_call.specs.Rows.{Begins, LeavesNone};

use crate::CallKept;
use crate::asked::special;
use class_world::World;
use py_node::task::{Args, Keywords};
use py_node::{Cause, Known, OutOfMemory, PyObjectRef, SlotEntry, SlotId, Step};
use row_kit::called::native_call;

/// An object is called as its class's entry for calls says: by a native, or by the special method.
pub(crate) fn begin_call(
    world: &mut World,
    f: PyObjectRef,
    args: Args,
    kw: Keywords,
) -> Result<Step<CallKept>, OutOfMemory>
    requires { AllHold world.old (IsNode f ∷ of_args args.items kw.items) }
    ensures goes { IfOk result (λ step. Begins (call.Call f args kw) world.old world.new step) }
    ensures safe { LeavesNone world.old world.new result }
{
    match world.slot(f, SlotId::Call) {
        Some(SlotEntry::Native(native)) => {
            match native_call(world, native, f, args, kw)? {
                Some(task) => Ok(Step::Ask(task, CallKept::Named)),
                None => Ok(Step::elsewhere()),
            }
        }
        Some(SlotEntry::Wrapper(_)) => {
            let task = special(world, f, Known::Call, args, kw);
            Ok(Step::Ask(task, CallKept::Named))
        }
        _ => Ok(Step::raise(Cause::NotCallable)),
    }
}
