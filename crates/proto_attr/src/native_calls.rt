//! The natives that call an object, bind it, or make one, by name. Each is a small automaton: `begin` and `resume`.
#![tactic(auto, using(class_world::proofs::Items::item_holds), unfolding(crate::specs::NativeCalls::Say::asking_job_say))]

ghost use Rattle.proto_attr.specs.Below.{IfOk, of_args, of_ended, of_step, Leaves, bindings, AllHold, AreNodes, Holds};
ghost use Rattle.std.specs.Prelude.{◌≡◌};
ghost use Rattle.py_node.specs.declared.task.Task.TheVariants as task;
ghost use Rattle.proto_attr.specs.ProtoDescr.Rows.{nothing_held};
ghost use Rattle.proto_attr.specs.NativeCalls.Asks.{Begins, Resumes, Does, of_native_kept, answering, marking, passed};
ghost use Rattle.proto_attr.specs.NativeCalls.Say.{by_way, way_of};

use crate::native_calls::bind::{
    class_method_by_name, function_get_by_name, getset_get_by_name, native_get_by_name,
    resume_class_method, static_method_by_name,
};
use crate::native_calls::call::call_by_name;
use crate::native_calls::create::new_by_name;
use crate::native_calls::mark::mark_by_name;
use crate::native_calls::parts::{member_get_by_name, property_get_by_name};
use crate::native_calls::set::{delete_by_name, set_by_name};
use crate::native_calls::supers::{
    resume_super, super_attribute_by_name, super_get_by_name, super_init_by_name,
};
use crate::native_calls::way::{Kind, Way, Wrapper, way_of};
use crate::native_calls::wrap::{ask_for_doc, give_doc};
use crate::native_calls::wrapped::part_of_wrapped;
use class_world::{Fixed, World};
use py_node::task::{Args, Keywords};
use py_node::{
    Answer, Detail, FuncArgs, NativeEntry, OutOfMemory, PyObjectRef, PyTypeRef, Raised, Step,
    caught,
};
use row_kit::give::as_object;

mod bind;
mod call;
mod create;
mod mark;
mod parts;
mod set;
mod supers;
pub mod way;
mod wrap;
mod wrapped;

/// What a native keeps while it waits for an answer.
#[derive(Drop)]
pub enum NativeKept {
    /// The answer is passed on: where there is no object, it is None.
    Pass,
    /// A class method asked for `__get__` of what it wraps: the class, and what it wraps.
    AfterGet(PyObjectRef, PyObjectRef),
    /// A new class method or static method asked for the doc of what it is to wrap: its class, and what it wraps.
    AfterDoc(Wrapper, PyTypeRef, PyObjectRef),
    /// It was made, and is given the doc.
    AfterSet(PyObjectRef),
    /// It answers None, whatever it asked gave.
    Answering,
    /// It answers False, where it can't be told whether what it asked is abstract.
    Marked,
    /// A `super` is told where to start for an object to which it is to be bound: its class, and the object.
    Binding(PyTypeRef, PyObjectRef),
}

/// The first step of one of these natives.
pub fn begin(
    world: &mut World,
    entry: NativeEntry,
    args: Args,
    kw: Keywords,
) -> Result<Step<NativeKept>, OutOfMemory>
    requires { AllHold world.old (of_args args.items kw.items) }
    ensures goes { IfOk result (λ step. Begins (task.Native entry args kw) world.old world.new step) }
    ensures safe { Leaves of_native_kept world.old world.new result }
{
    let call = FuncArgs {
        args: &args,
        kw: &kw,
    };
    match way_of(entry) {
        Way::Binds(kind) => binds(world, entry, kind, call),
        Way::Sets(setting) => {
            let step = set_by_name(world, setting, call)?;
            Ok(answering(world, step))
        }
        Way::Deletes(setting) => {
            let step = delete_by_name(world, setting, call)?;
            Ok(answering(world, step))
        }
        Way::Reads(wrapper, detail) => {
            let step = part_of_wrapped(world, wrapper, detail, call);
            Ok(passed(step))
        }
        Way::Marked(wrapper) => {
            let step = part_of_wrapped(world, wrapper, Detail::IsAbstract, call);
            Ok(marking(step))
        }
        Way::Marks(class) => {
            let step = mark_by_name(world, class, call);
            Ok(answering(world, step))
        }
        Way::Looks => {
            let step = super_attribute_by_name(world, call)?;
            Ok(passed(step))
        }
        Way::Starts => {
            let step = super_init_by_name(world, call)?;
            Ok(passed(step))
        }
        Way::Wraps(wrapper) => Ok(ask_for_doc(world, entry, wrapper, call)),
        Way::Makes => {
            let step = new_by_name(world, &args, kw)?;
            Ok(passed(step))
        }
        Way::Calls => {
            let step = call_by_name(world, entry, args, kw)?;
            Ok(passed(step))
        }
    }
}

// What an object of a kind gives as it is bound.
fn binds(
    world: &mut World,
    entry: NativeEntry,
    kind: Kind,
    call: FuncArgs<'_>,
) -> Result<Step<NativeKept>, OutOfMemory>
    requires args { Holds world.old (AreNodes call.args.now) }
    requires way { way_of entry ≡ Way.Binds kind }
    ensures goes { IfOk result (λ step. Does entry
        (λ t u. by_way u (Way.Binds kind) entry call.entry.args.now (bindings t call.entry.kw.now)) world.old world.new step) }
    ensures safe { Leaves of_native_kept world.old world.new result }
{
    match kind {
        Kind::Function => {
            let ended = caught(function_get_by_name(world, call))?;
            Ok(Step::End(ended))
        }
        Kind::Native => {
            let ended = caught(native_get_by_name(world, call))?;
            Ok(Step::End(ended))
        }
        Kind::GetSet => {
            let step = getset_get_by_name(world, call)?;
            Ok(passed(step))
        }
        Kind::Member => {
            let step = member_get_by_name(world, call)?;
            Ok(passed(step))
        }
        Kind::Property => {
            let step = property_get_by_name(world, call)?;
            Ok(passed(step))
        }
        Kind::Super => Ok(super_get_by_name(world, entry, call)),
        Kind::ClassMethod => Ok(class_method_by_name(world, entry, call)),
        Kind::StaticMethod => {
            let ended = static_method_by_name(world, call);
            Ok(Step::End(ended))
        }
    }
}

/// Goes on with a native that was given an answer.
pub fn resume(
    world: &mut World,
    kept: NativeKept,
    answer: Result<Answer, Raised>,
) -> Result<Step<NativeKept>, OutOfMemory>
    requires kept { AllHold world.old (of_native_kept kept) }
    requires answer { AllHold world.old (of_ended answer) }
    ensures goes { IfOk result (λ step. Resumes kept answer world.old world.new step) }
    ensures safe { Leaves of_native_kept world.old world.new result }
{
    match kept {
        NativeKept::Pass => {
            let ended = caught(as_object(world, answer))?;
            Ok(Step::End(ended))
        }
        NativeKept::AfterGet(class, func) => resume_class_method(world, class, func, answer),
        NativeKept::AfterDoc(wrapper, class, func) => {
            give_doc(world, wrapper, class, func, answer)
        }
        NativeKept::AfterSet(new) => match answer {
            Err(raised) => Ok(Step::End(Err(raised))),
            Ok(_done) => Ok(Step::End(Ok(Answer::Value(new)))),
        },
        NativeKept::Answering => match answer {
            Err(raised) => Ok(Step::End(Err(raised))),
            Ok(_any) => Ok(Step::End(Ok(Answer::Value(world.fixed(Fixed::None))))),
        },
        NativeKept::Marked => match answer {
            Err(_) => Ok(Step::End(Ok(Answer::Value(world.truth(false))))),
            other => Ok(Step::End(other)),
        },
        NativeKept::Binding(class, object) => resume_super(world, class, object, answer),
    }
}

// A step that keeps nothing, among those of natives.
pub(crate) fn passed(step: Step<()>) -> Step<NativeKept>
    ensures step { result ≡ passed step }
    ensures says { of_step of_native_kept result ≡ of_step nothing_held step }
{
    match step {
        Step::Ask(task, _) => Step::Ask(task, NativeKept::Pass),
        Step::End(answer) => Step::End(answer),
    }
}

// The same, where a native answers None, whatever it asked gave.
fn answering(world: &World, step: Step<()>) -> Step<NativeKept>
    requires { AllHold world.now (of_step nothing_held step) }
    ensures step { result ≡ answering step }
    ensures safe { AllHold world.now (of_step of_native_kept result) }
{
    match step {
        Step::Ask(task, _) => Step::Ask(task, NativeKept::Answering),
        Step::End(Ok(_any)) => Step::End(Ok(Answer::Value(world.fixed(Fixed::None)))),
        Step::End(Err(raised)) => Step::End(Err(raised)),
    }
}

// The same, where what can't tell whether it is abstract is not.
fn marking(step: Step<()>) -> Step<NativeKept>
    ensures step { result ≡ marking step }
    ensures says { of_step of_native_kept result ≡ of_step nothing_held step }
{
    match step {
        Step::Ask(task, _) => Step::Ask(task, NativeKept::Marked),
        Step::End(answer) => Step::End(answer),
    }
}
