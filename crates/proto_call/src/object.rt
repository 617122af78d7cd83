//! The natives of `object`.

ghost use Rattle.proto_call.specs.Below.{Some, IfOk, option_map, is_text, datum_at, found, AllHold, Holds, Grows, IsNode, IsClass, IsOf, AreNodes, of_option, of_node_ref, of_class_ref, of_args, of_ended, Reading, Reads, bindings, datum, plain, the_object};
ghost use Rattle.std.specs.Prelude.{◌≡◌};
ghost use Rattle.py_node.specs.declared.entry.ObjectNative.TheVariants as object;
ghost use Rattle.py_node.specs.declared.task.CallTask.TheVariants as call;
ghost use Rattle.py_node.specs.declared.built_in.BuiltIn.TheVariants.{Object};
ghost use Rattle.proto_call.specs.Say.{object_by, object_new, object_init, object_init_subclass, object_get_attribute, object_set_attr, object_del_attr, new_of_class, created, unless_abstract, is_abstract, has_items};
ghost use Rattle.proto_call.specs.Rows.{Begins, Resumes, Closes, Does, OpensNone, LeavesNone};

use crate::CallKept;
use crate::object_natives::object_native;
use crate::texts::{object_dir, object_format, object_ne, object_str};
use class_world::takes::{one, three, two};
use class_world::{Fixed, World};
use py_node::task::{Args, Keywords};
use py_node::{
    Answer, AttributeTask, BuiltIn, Cause, FuncArgs, Known, ObjectNative, OutOfMemory, Payload,
    PyObjectRef, PySetterValue, Raised, Step, Task, caught,
};

/// A native of `object`.
pub(crate) fn begin_object(
    world: &mut World,
    native: ObjectNative,
    args: Args,
    kw: Keywords,
) -> Result<Step<CallKept>, OutOfMemory>
    requires { AllHold world.old (of_args args.items kw.items) }
    ensures goes { IfOk result (λ step. Begins (call.Object native args kw) world.old world.new step) }
    ensures safe { LeavesNone world.old world.new result }
{
    let step = object_by(
        world,
        native,
        FuncArgs {
            args: &args,
            kw: &kw,
        },
    )?;
    Ok(step)
}

// What a native of `object` does with its arguments and keywords.
fn object_by(
    world: &mut World,
    native: ObjectNative,
    call: FuncArgs<'_>,
) -> Result<Step<CallKept>, OutOfMemory>
    requires { Holds world.old (AreNodes call.args.now) }
    ensures goes { IfOk result (λ step. Does native (λ t u. object_by u native call.entry.args.now (bindings t call.entry.kw.now))
        world.old world.new step) }
    ensures safe { LeavesNone world.old world.new result }
{
    match native {
        ObjectNative::New => object_new(world, call.args),
        ObjectNative::Init => Ok(object_init(world, call.args)),
        ObjectNative::InitSubclass => Ok(object_init_subclass(world, call)),
        ObjectNative::GetAttribute => object_get_attribute(world, call),
        ObjectNative::SetAttr => object_set_attr(world, call),
        ObjectNative::DelAttr => object_del_attr(world, call),
        ObjectNative::Str => Ok(object_str(world, call)),
        ObjectNative::Format => Ok(object_format(world, call)),
        ObjectNative::Dir => Ok(object_dir(world, call)),
        ObjectNative::Ne => Ok(object_ne(world, call)),
        native => {
            let ended = caught(object_native(world, native, call))?;
            Ok(Step::End(ended))
        }
    }
}

// A new object of the class that is the first argument: its objects must be plain ones, and it may leave
// no method abstract.
#[tactic(auto, using(class_world::proofs::Items::item_holds), unfolding(crate::specs::Say::call_job_say, py_node::specs::BuiltIns::place_of))]
fn object_new(world: &mut World, args: &[PyObjectRef]) -> Result<Step<CallKept>, OutOfMemory>
    requires { Holds world.old (AreNodes args.now) }
    ensures goes { IfOk result (λ step. Closes (λ t u. object_new u args.now) world.old world.new step) }
    ensures safe { LeavesNone world.old world.new result }
{
    let [class, ..] = args else {
        return Ok(Step::raise(Cause::ArgCount));
    };
    let Some(class) = world.class_number(*class) else {
        return Ok(Step::raise(Cause::SelfType));
    };
    let Some(built_in) = world.nearest_built_in(class) else {
        return Ok(Step::raise(Cause::UnsafeNew));
    };
    if built_in.0 != BuiltIn::Object.class().0 {
        return Ok(Step::raise(Cause::UnsafeNew));
    }
    let methods = world.class_attr(class, world.known(Known::Abstractmethods));
    if is_abstract(world, methods) {
        return Ok(Step::raise(Cause::AbstractMethods));
    }
    let node = world.make_node(class, Payload::Object)?;
    Ok(Step::End(Ok(Answer::Value(node))))
}

// Whether the methods that are said to be abstract are any.
fn is_abstract(world: &World, methods: Option<PyObjectRef>) -> bool
    requires { AllHold world.now (of_option of_node_ref methods) }
    ensures { (t : Reading) → is_abstract (plain t world.now) methods ≡ result }
{
    match methods {
        None => false,
        Some(methods) => has_items(world.payload(methods)),
    }
}

// Whether this is a tuple or a list that isn't empty.
fn has_items(payload: &Payload) -> bool
    ensures { (t : Reading) → has_items (Some (datum t payload.now)) ≡ result }
{
    match payload {
        Payload::Tuple(items) => !items.is_empty(),
        Payload::List(items) => !items.is_empty(),
        _ => false,
    }
}

// The initialisation of a plain object: any arguments will do.
fn object_init(world: &World, args: &[PyObjectRef]) -> Step<CallKept>
    ensures goes { Closes (λ t u. object_init u args.now) world.now world.now result }
    ensures safe { OpensNone world.now result }
{
    match args {
        [] => Step::raise(Cause::ArgCount),
        _ => Step::End(Ok(Answer::Value(world.fixed(Fixed::None)))),
    }
}

// What is done for a new class by default: nothing.
fn object_init_subclass(world: &World, call: FuncArgs<'_>) -> Step<CallKept>
    ensures goes { Closes (λ t u. object_init_subclass u call.entry.args.now (bindings t call.entry.kw.now)) world.now world.now result }
    ensures safe { OpensNone world.now result }
{
    match one(call) {
        Err(raised) => Step::End(Err(raised)),
        Ok(_class) => Step::End(Ok(Answer::Value(world.fixed(Fixed::None)))),
    }
}

// An attribute by its name, as objects read it.
fn object_get_attribute(
    world: &mut World,
    call: FuncArgs<'_>,
) -> Result<Step<CallKept>, OutOfMemory>
    requires { Holds world.old (AreNodes call.args.now) }
    ensures goes { IfOk result (λ step. Does object.GetAttribute
        (λ t u. object_get_attribute u call.entry.args.now (bindings t call.entry.kw.now)) world.old world.new step) }
    ensures safe { LeavesNone world.old world.new result }
{
    match two(call) {
        Err(raised) => Ok(Step::End(Err(raised))),
        Ok((o, name)) => match caught(world.name_in(name))? {
            Err(raised) => Ok(Step::End(Err(raised))),
            Ok(name) => Ok(asked(AttributeTask::Generic(o, name))),
        },
    }
}

// An attribute by its name, as objects set it.
fn object_set_attr(world: &mut World, call: FuncArgs<'_>) -> Result<Step<CallKept>, OutOfMemory>
    requires { Holds world.old (AreNodes call.args.now) }
    ensures goes { IfOk result (λ step. Does object.SetAttr (λ t u. object_set_attr u call.entry.args.now (bindings t call.entry.kw.now))
        world.old world.new step) }
    ensures safe { LeavesNone world.old world.new result }
{
    match three(call) {
        Err(raised) => Ok(Step::End(Err(raised))),
        Ok((o, name, value)) => match caught(world.name_in(name))? {
            Err(raised) => Ok(Step::End(Err(raised))),
            Ok(name) => {
                let value = PySetterValue::Assign(value);
                Ok(asked(AttributeTask::GenericSet(o, name, value)))
            }
        },
    }
}

// An attribute by its name, as objects take it out.
fn object_del_attr(world: &mut World, call: FuncArgs<'_>) -> Result<Step<CallKept>, OutOfMemory>
    requires { Holds world.old (AreNodes call.args.now) }
    ensures goes { IfOk result (λ step. Does object.DelAttr (λ t u. object_del_attr u call.entry.args.now (bindings t call.entry.kw.now))
        world.old world.new step) }
    ensures safe { LeavesNone world.old world.new result }
{
    match two(call) {
        Err(raised) => Ok(Step::End(Err(raised))),
        Ok((o, name)) => match caught(world.name_in(name))? {
            Err(raised) => Ok(Step::End(Err(raised))),
            Ok(name) => {
                let task = AttributeTask::GenericSet(o, name, PySetterValue::Delete);
                Ok(asked(task))
            }
        },
    }
}

// A task is asked. Where it gives no object, the native answers None.
fn asked(task: AttributeTask) -> Step<CallKept>
    ensures { result ≡ Step.Ask (Task.Attribute task) CallKept.Native }
{
    Step::Ask(Task::Attribute(task), CallKept::Native)
}

// What a native answers that asked a task.
pub(crate) fn native_end(world: &World, answer: Result<Answer, Raised>) -> Step<CallKept>
    requires { AllHold world.now (of_ended answer) }
    ensures goes { Resumes CallKept.Native answer world.now world.now result }
    ensures safe { OpensNone world.now result }
{
    match answer {
        Ok(Answer::Done) => Step::End(Ok(Answer::Value(world.fixed(Fixed::None)))),
        other => Step::End(other),
    }
}
