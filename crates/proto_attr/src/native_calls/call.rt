//! Calls by name.

ghost use Rattle.proto_attr.specs.Below.{IfOk, option_map, datum_at, of_args, of_task, Leaves, Reading, bindings, plain, task_of, AllHold, Holds, IsNode, of_option};
ghost use Rattle.std.specs.Prelude.{◌≡◌, ◌∷◌};
ghost use Rattle.proto_attr.specs.ProtoDescr.Rows.{StepsAs, nothing_held};
ghost use Rattle.proto_attr.specs.NativeCalls.Say.{call_by_name, called_task, is_function};

use class_world::World;
use class_world::args::copy_args;
use py_node::task::{Args, Keywords};
use py_node::{CallableNative, Cause, NativeEntry, OutOfMemory, Payload, PyObjectRef, Step, Task};
use row_kit::called::native_call;

/// The first argument is called with those after it, by a native that is for its kind.
pub(crate) fn call_by_name(
    world: &World,
    native: NativeEntry,
    args: Args,
    kw: Keywords,
) -> Result<Step<()>, OutOfMemory>
    requires { AllHold world.now (of_args args.items kw.items) }
    ensures steps { IfOk result (λ step. StepsAs (λ t u. call_by_name u native args.items (bindings t kw.items))
        world.now world.now step) }
    ensures safe { Leaves nothing_held world.now world.now result }
{
    match args.as_slice() {
        [] => Ok(Step::raise(Cause::ArgCount)),
        [f, rest @ ..] => {
            let rest = copy_args(world.alloc(), rest)?;
            match called_task(world, native, *f, rest, kw)? {
                None => Ok(Step::raise(Cause::SelfType)),
                Some(task) => Ok(Step::Ask(task, ())),
            }
        }
    }
}

// What is asked where an object is called by a native that is for its kind.
fn called_task(
    world: &World,
    native: NativeEntry,
    f: PyObjectRef,
    args: Args,
    kw: Keywords,
) -> Result<Option<Task>, OutOfMemory>
    requires { AllHold world.now (IsNode f ∷ of_args args.items kw.items) }
    ensures task { IfOk result (λ o. (t : Reading) → option_map (task_of t) o ≡
        called_task (plain t world.now) native f args.items (bindings t kw.items)) }
    ensures holds { IfOk result (λ o. AllHold world.now (of_option of_task o)) }
{
    let body = NativeEntry::OfCallable(CallableNative::CallFunction);
    if native.is_same(body) && !is_function(world, f) {
        Ok(None)
    } else {
        native_call(world, native, f, args, kw)
    }
}

/// Whether an object is a function.
pub(crate) fn is_function(world: &World, object: PyObjectRef) -> bool
    requires { Holds world.now (IsNode object) }
    ensures { (t : Reading) → is_function (datum_at (plain t world.now) object) ≡ result }
{
    matches!(world.payload(object), Payload::Function(_))
}
