//! What `super` does by name.

ghost use Rattle.proto_attr.specs.Below.{IfOk, of_ended, of_step, Leaves, bindings, AllHold, AreNodes, Holds};
ghost use Rattle.std.specs.Prelude.{◌≡◌};
ghost use Rattle.proto_attr.specs.declared.native_calls.way.Way.TheVariants as Way;
ghost use Rattle.proto_attr.specs.ProtoDescr.Rows.{StepsAs, nothing_held};
ghost use Rattle.proto_attr.specs.NativeCalls.Asks.{Does, Resumes, of_native_kept};
ghost use Rattle.proto_attr.specs.NativeCalls.Say.{super_attribute_by_name, super_get_by_name, super_init_by_name, way_of};

use crate::native_calls::NativeKept;
use crate::native_calls::bind::{bound, is_of_kind};
use crate::native_calls::way::Kind;
use crate::proto_descr::{bind_super, unbound_super};
use class_world::World;
use class_world::args::copy_args;
use class_world::takes::one;
use py_node::{
    Answer, Cause, DescriptorTask, FuncArgs, NativeEntry, OutOfMemory, PyObjectRef, PyTypeRef,
    Raised, Step, Task, caught,
};

/// A `super` that is bound to nothing is told where to start for an object.
pub(crate) fn super_get_by_name(
    world: &World,
    entry: NativeEntry,
    call: FuncArgs<'_>,
) -> Step<NativeKept>
    requires args { Holds world.now (AreNodes call.args.now) }
    requires way { way_of entry ≡ Way.Binds Kind.Super }
    ensures goes { Does entry (λ t u. super_get_by_name u call.entry.args.now (bindings t call.entry.kw.now)) world.now world.now result }
    ensures safe { AllHold world.now (of_step of_native_kept result) }
{
    match bound(world, Kind::Super, call) {
        Err(raised) => Step::End(Err(raised)),
        Ok((m, o, _class)) => match unbound_super(world, m, Some(o)) {
            None => Step::End(Ok(Answer::Value(m))),
            Some((class, object)) => {
                let task = DescriptorTask::SuperCheck(class, object);
                Step::Ask(Task::Descriptor(task), NativeKept::Binding(class, object))
            }
        },
    }
}

/// A `super` goes on with its class and the object.
pub(crate) fn resume_super(
    world: &mut World,
    class: PyTypeRef,
    object: PyObjectRef,
    answer: Result<Answer, Raised>,
) -> Result<Step<NativeKept>, OutOfMemory>
    requires kept { AllHold world.old (of_native_kept (NativeKept.Binding class object)) }
    requires answer { AllHold world.old (of_ended answer) }
    ensures goes { IfOk result (λ step. Resumes (NativeKept.Binding class object) answer
        world.old world.new step) }
    ensures safe { Leaves of_native_kept world.old world.new result }
{
    let ended = caught(bind_super(world, class, object, answer))?;
    Ok(Step::End(ended))
}

/// An attribute of a `super` by its name.
pub(crate) fn super_attribute_by_name(
    world: &mut World,
    call: FuncArgs<'_>,
) -> Result<Step<()>, OutOfMemory>
    requires { Holds world.old (AreNodes call.args.now) }
    ensures steps { IfOk result (λ step. StepsAs (λ t u. super_attribute_by_name u call.entry.args.now (bindings t call.entry.kw.now))
        world.old world.new step) }
    ensures safe { Leaves nothing_held world.old world.new result }
{
    match call.args {
        [] => Ok(Step::raise(Cause::ArgCount)),
        [s, rest @ ..] => {
            if !is_of_kind(world, Kind::Super, *s) {
                return Ok(Step::raise(Cause::SelfType));
            }
            match one(FuncArgs {
                args: rest,
                kw: call.kw,
            }) {
                Err(raised) => Ok(Step::End(Err(raised))),
                Ok(name) => match caught(world.name_in(name))? {
                    Err(raised) => Ok(Step::End(Err(raised))),
                    Ok(name) => {
                        let task = DescriptorTask::SuperGet(*s, name);
                        Ok(Step::Ask(Task::Descriptor(task), ()))
                    }
                },
            }
        }
    }
}

/// A `super` is initialised with any arguments, but no keywords.
pub(crate) fn super_init_by_name(world: &World, call: FuncArgs<'_>) -> Result<Step<()>, OutOfMemory>
    requires { Holds world.now (AreNodes call.args.now) }
    ensures steps { IfOk result (λ step. StepsAs (λ t u. super_init_by_name u call.entry.args.now (bindings t call.entry.kw.now))
        world.now world.now step) }
    ensures safe { Leaves nothing_held world.now world.now result }
{
    match call.args {
        [] => Ok(Step::raise(Cause::ArgCount)),
        [s, rest @ ..] => {
            if !is_of_kind(world, Kind::Super, *s) {
                return Ok(Step::raise(Cause::SelfType));
            }
            if !call.kw.is_empty() {
                return Ok(Step::raise(Cause::UnexpectedKeyword));
            }
            let rest = copy_args(world.alloc(), rest)?;
            let task = DescriptorTask::SuperInit(*s, rest);
            Ok(Step::Ask(Task::Descriptor(task), ()))
        }
    }
}
