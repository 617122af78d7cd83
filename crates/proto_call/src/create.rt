//! The call of a class, and the making of its object.

ghost use Rattle.proto_call.specs.Below.{Ok, eqb, cond, IfOk, ToCall, DoNew, DoInit, Ends, pass, value, AllHold, Holds, Grows, IsNode, IsClass, of_option, of_node_ref, of_args, of_task, Reading, Reads, bindings, plain, task_of, the_type};
ghost use Rattle.std.specs.Prelude.{◌≡◌, ◌&&◌, ◌∷◌};
ghost use Rattle.py_node.specs.declared.task.CallTask.TheVariants as call;
ghost use Rattle.proto_call.specs.Say.{is_empty, initialised, new_by, new_found};
ghost use Rattle.proto_call.specs.Rows.{Begins, Starts, Continues, Resumes, OpensNone, LeavesNone};

use crate::CallKept;
use class_world::World;
use class_world::args::{copy_args, copy_keywords};
use class_world::natives::native_task;
use py_node::task::{Args, Keywords};
use py_node::{
    Answer, BuiltIn, CallTask, Cause, FuncArgs, Known, OutOfMemory, PyObjectRef, PyStrInterned,
    PyTypeRef, SlotEntry, SlotId, Step, Task,
};
use row_kit::called::bound;
use std::alloc::Global;

/// The call of a class: first the object is made, of the same arguments.
pub(crate) fn begin_type_call(
    world: &World,
    class: PyTypeRef,
    args: Args,
    kw: Keywords,
) -> Result<Step<CallKept>, OutOfMemory>
    requires { AllHold world.now (IsClass class.0 ∷ of_args args.items kw.items) }
    ensures goes { IfOk result (λ step. Begins (call.TypeCall class args kw) world.now world.now step) }
    ensures safe { IfOk result (λ step. OpensNone world.now step) }
{
    let alloc = world.alloc();
    let task = new_task(
        alloc,
        class,
        FuncArgs {
            args: &args,
            kw: &kw,
        },
    )?;
    Ok(Step::Ask(task, CallKept::AfterNew(class, args, kw)))
}

// The task that makes an object of a class, of these arguments.
fn new_task(alloc: Global, class: PyTypeRef, call: FuncArgs<'_>) -> Result<Task, OutOfMemory>
    ensures task { IfOk result (λ task. (t : Reading) → task_of t task ≡
        ToCall (DoNew class.0 class.0 call.entry.args.now (bindings t call.entry.kw.now))) }
    ensures holds { IfOk result (λ task. (w : World) → AllHold w (IsClass class.0 ∷ of_args call.entry.args.now call.entry.kw.now) →
        AllHold w (of_task task)) }
{
    let args = copy_args(alloc, call.args)?;
    let kw = copy_keywords(alloc, call.kw)?;
    Ok(Task::Call(CallTask::New(class, class, args, kw)))
}

/// The call of a class goes on with the object that was made.
pub(crate) fn resume_type_call(
    world: &World,
    class: PyTypeRef,
    args: Args,
    kw: Keywords,
    object: PyObjectRef,
) -> Step<CallKept>
    requires kept { AllHold world.now (IsClass class.0 ∷ of_args args.items kw.items) }
    requires answer { Holds world.now (IsNode object) }
    ensures goes { Resumes (CallKept.AfterNew class args kw) (Ok (Answer.Value object)) world.now world.now result }
    ensures safe { OpensNone world.now result }
{
    let is_type = is_type_alone(class, &kw);
    let is_instance = world.is_instance(object, class);
    initialised(is_type || !is_instance, class, args, kw, object)
}

// Whether `type` was asked, with no keyword.
#[tactic(auto, unfolding(py_node::specs::BuiltIns::place_of))]
fn is_type_alone(class: PyTypeRef, kw: &[(PyStrInterned, PyObjectRef)]) -> bool
    ensures { (t : Reading) → (eqb class.0 the_type && is_empty (bindings t kw.now)) ≡ result }
{
    class == BuiltIn::TypeType.class() && kw.is_empty()
}

// The new object is initialised, unless it is the answer as it is.
fn initialised(
    is_answer: bool,
    class: PyTypeRef,
    args: Args,
    kw: Keywords,
    object: PyObjectRef,
) -> Step<CallKept>
    ensures goes { (w : World) → Continues (CallKept.AfterNew class args kw) (Ok (Answer.Value object)) (λ t u.
        cond is_answer (Ends u (value object)) (pass u (ToCall (DoInit object args.items (bindings t kw.items)))))
        w w result }
    ensures safe { (w : World) → AllHold w (IsClass class.0 ∷ of_args args.items kw.items) → Holds w (IsNode object) →
        OpensNone w result }
{
    if is_answer {
        Step::End(Ok(Answer::Value(object)))
    } else {
        Step::Ask(
            Task::Call(CallTask::Init(object, args, kw)),
            CallKept::AfterInit(object),
        )
    }
}

/// An object of a class is made, as a class makes objects.
pub(crate) fn begin_new(
    world: &mut World,
    by: PyTypeRef,
    class: PyTypeRef,
    args: Args,
    kw: Keywords,
) -> Result<Step<CallKept>, OutOfMemory>
    requires { AllHold world.old (IsClass by.0 ∷ IsClass class.0 ∷ of_args args.items kw.items) }
    ensures goes { IfOk result (λ step. Begins (call.New by class args kw) world.old world.new step) }
    ensures safe { LeavesNone world.old world.new result }
{
    let entry = world.class_slot(by, SlotId::New);
    new_by(world, entry, by, class, args, kw)
}

// An object is made by an entry: a native, or the method of that name.
fn new_by(
    world: &World,
    entry: Option<SlotEntry>,
    by: PyTypeRef,
    class: PyTypeRef,
    args: Args,
    kw: Keywords,
) -> Result<Step<CallKept>, OutOfMemory>
    requires { AllHold world.now (IsClass class.0 ∷ of_args args.items kw.items) }
    ensures goes { IfOk result (λ step. Starts (call.New by class args kw) (λ t u.
        new_by u entry class.0 args.items (bindings t kw.items)) world.now world.now step) }
    ensures safe { LeavesNone world.now world.now result }
{
    let alloc = world.alloc();
    match entry {
        Some(SlotEntry::Native(native)) => {
            let args = bound(alloc, world.class_object(class), args)?;
            Ok(Step::Ask(native_task(native, args, kw), CallKept::Pass))
        }
        Some(SlotEntry::Wrapper(_)) => {
            let method = world.class_attr(class, world.known(Known::New));
            new_found(world, method, by, class, args, kw)
        }
        _ => Ok(Step::raise(Cause::CannotCreate)),
    }
}

// An object is made by the method that was found, if any.
fn new_found(
    world: &World,
    method: Option<PyObjectRef>,
    by: PyTypeRef,
    class: PyTypeRef,
    args: Args,
    kw: Keywords,
) -> Result<Step<CallKept>, OutOfMemory>
    requires args { AllHold world.now (IsClass class.0 ∷ of_args args.items kw.items) }
    requires method { AllHold world.now (of_option of_node_ref method) }
    ensures goes { IfOk result (λ step. Starts (call.New by class args kw) (λ t u.
        new_found u method class.0 args.items (bindings t kw.items)) world.now world.now step) }
    ensures safe { IfOk result (λ step. OpensNone world.now step) }
{
    let alloc = world.alloc();
    match method {
        None => Ok(Step::raise(Cause::NoSpecial)),
        Some(method) => {
            let args = bound(alloc, world.class_object(class), args)?;
            Ok(Step::Ask(Task::Call(CallTask::Call(method, args, kw)), CallKept::Pass))
        }
    }
}
