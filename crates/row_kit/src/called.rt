//! What is asked where an object is called by a native that is for its kind.

ghost use Rattle.row_kit.specs.Below.{Some, IfOk, option_map, datum_at, AllHold, Holds, IsNode, AreNodes, of_payload, of_option, of_node_ref, of_args, of_task, Reading, bindings, datum, plain, task_of};
ghost use Rattle.std.specs.Prelude.{◌≡◌, ◌∷◌};
ghost use Rattle.row_kit.specs.Called.{call_native, with_self};

use class_world::World;
use class_world::args::with_first;
use class_world::natives::native_task;
use py_node::task::{Args, Keywords};
use py_node::{
    CallTask, CallableNative, NativeEntry, OutOfMemory, Payload, PyObjectRef, Task, TypeNative,
    WrapperNative,
};
use std::alloc::Global;

/// The arguments with an object before them.
pub fn bound(alloc: Global, object: PyObjectRef, args: Args) -> Result<Args, OutOfMemory>
    ensures items { IfOk result (λ v. v.items ≡ object ∷ args.items) }
    ensures holds { IfOk result (λ v. (w : World) → Holds w (IsNode object) → Holds w (AreNodes args.items) →
        Holds w (AreNodes v.items)) }
{
    let all = with_first(alloc, object, &args)?;
    Ok(all)
}

/// What a native entry for calls asks for an object, if it is there yet.
pub fn native_call(
    world: &World,
    native: NativeEntry,
    f: PyObjectRef,
    args: Args,
    kw: Keywords,
) -> Result<Option<Task>, OutOfMemory>
    requires { AllHold world.now (IsNode f ∷ of_args args.items kw.items) }
    ensures task { IfOk result (λ o. (t : Reading) → option_map (task_of t) o ≡
        call_native native (datum_at (plain t world.now) f) f args.items (bindings t kw.items)) }
    ensures holds { IfOk result (λ o. AllHold world.now (of_option of_task o)) }
{
    let alloc = world.alloc();
    let task = call_held(alloc, native, world.payload(f), f, args, kw)?;
    Ok(task)
}

// The same for an object that holds this.
fn call_held(
    alloc: Global,
    native: NativeEntry,
    payload: &Payload,
    f: PyObjectRef,
    args: Args,
    kw: Keywords,
) -> Result<Option<Task>, OutOfMemory>
    ensures task { IfOk result (λ o. (t : Reading) → option_map (task_of t) o ≡
        call_native native (Some (datum t payload.now)) f args.items (bindings t kw.items)) }
    ensures holds { IfOk result (λ o. (w : World) → AllHold w (IsNode f ∷ of_args args.items kw.items) →
        AllHold w (of_payload payload.now) → AllHold w (of_option of_task o)) }
{
    match (native, payload) {
        (NativeEntry::OfCallable(CallableNative::CallFunction), _) => {
            Ok(Some(Task::Call(CallTask::Body(f, args, kw))))
        }
        (NativeEntry::OfCallable(CallableNative::CallMethod), Payload::Method(method)) => {
            let args = bound(alloc, method.target, args)?;
            Ok(Some(Task::Call(CallTask::Call(method.func, args, kw))))
        }
        (
            NativeEntry::OfCallable(CallableNative::CallNativeFunction),
            Payload::NativeFunction(func),
        ) => {
            let func = func.get();
            let args = with_self(alloc, func.target, args)?;
            Ok(Some(native_task(func.entry, args, kw)))
        }
        (
            NativeEntry::OfCallable(CallableNative::CallBuiltinMethod),
            Payload::BuiltinMethod(method),
        ) => {
            let method = method.get();
            let args = bound(alloc, method.target, args)?;
            Ok(Some(native_task(method.entry, args, kw)))
        }
        (
            NativeEntry::OfCallable(CallableNative::CallMethodDescriptor),
            Payload::MethodDescriptor(method),
        ) => { Ok(Some(native_task(method.get().entry, args, kw))) }
        (NativeEntry::OfType(TypeNative::Call), Payload::Class(class)) => {
            Ok(Some(Task::Call(CallTask::TypeCall(*class, args, kw))))
        }
        (NativeEntry::OfWrapper(WrapperNative::StaticCall), Payload::StaticMethod(func)) => {
            Ok(Some(Task::Call(CallTask::Call(*func, args, kw))))
        }
        _ => Ok(None),
    }
}

// The arguments of a native function, after the object that it is bound to, if any.
fn with_self(alloc: Global, target: Option<PyObjectRef>, args: Args) -> Result<Args, OutOfMemory>
    ensures items { IfOk result (λ v. v.items ≡ with_self target args.items) }
    ensures holds { IfOk result (λ v. (w : World) → AllHold w (of_option of_node_ref target) →
        Holds w (AreNodes args.items) → Holds w (AreNodes v.items)) }
{
    match target {
        None => Ok(args),
        Some(target) => bound(alloc, target, args),
    }
}
