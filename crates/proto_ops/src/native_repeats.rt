//! Repetition: a text, a tuple or a list that is repeated as often as a number says. By name it asks the index that an
//! object stands for first, and is a small automaton: `begin` and `resume`.
#![tactic(auto, using(class_world::proofs::Items::item_holds), unfolding(crate::specs::NativeRepeats::Say::repeat_job_say))]

ghost use Rattle.proto_ops.specs.Below.{Some, IfOk, of_args, of_ended, of_step, Leaves, AllHold, AreNodes, Holds};
ghost use Rattle.std.specs.Prelude.{◌≡◌};
ghost use Rattle.py_node.specs.declared.task.Task.TheVariants as task;
ghost use Rattle.proto_ops.specs.NativeRepeats.Rows.{Begins, Enters, Resumes, of_repeat_kept};
ghost use Rattle.proto_ops.specs.NativeRepeats.Say.{kind_of};

mod by_name;
mod count;
pub mod kind;
mod repeated;

use crate::native_repeats::by_name::{given, standing};
use crate::native_repeats::kind::{Repeated, kind_of};
use class_world::World;
use class_world::takes::two;
pub use count::{check_repeat_or_overflow_error, count_in};
use py_node::protocol::ProtocolTask;
use py_node::task::{Args, Keywords};
use py_node::{
    Answer, FuncArgs, NativeEntry, OutOfMemory, PyObjectRef, Raised, Step, Task, caught,
};
pub use repeated::native_repeat;

/// What a repetition by name keeps while it waits for the index that tells how often.
#[derive(Drop)]
pub struct RepeatKept {
    pub kind: Repeated,
    /// What is repeated.
    pub object: PyObjectRef,
    /// The items that it had, where it is a list.
    pub items: Args,
}

/// The first step of one of these natives.
pub fn begin(
    world: &mut World,
    entry: NativeEntry,
    args: Args,
    kw: Keywords,
) -> Result<Step<RepeatKept>, OutOfMemory>
    requires { AllHold world.old (of_args args.items kw.items) }
    ensures goes { IfOk result (λ step. Begins (task.Native entry args kw) world.old world.new step) }
    ensures safe { Leaves of_repeat_kept world.old world.new result }
{
    match kind_of(entry) {
        None => Ok(Step::elsewhere()),
        Some(kind) => begin_kind(
            world,
            entry,
            kind,
            FuncArgs {
                args: &args,
                kw: &kw,
            },
        ),
    }
}

// The index is asked that tells how often.
fn begin_kind(
    world: &World,
    entry: NativeEntry,
    kind: Repeated,
    call: FuncArgs<'_>,
) -> Result<Step<RepeatKept>, OutOfMemory>
    requires args { Holds world.now (AreNodes call.args.now) }
    requires kind { kind_of entry ≡ Some kind }
    ensures goes { IfOk result (λ step. Enters entry call.entry.args.now call.entry.kw.now world.now step) }
    ensures safe { IfOk result (λ step. AllHold world.now (of_step of_repeat_kept step)) }
{
    match caught(standing(world, kind, call.args))? {
        Err(raised) => Ok(Step::End(Err(raised))),
        Ok(items) => match two(call) {
            Err(raised) => Ok(Step::End(Err(raised))),
            Ok((object, index)) => Ok(Step::Ask(
                Task::Protocol(ProtocolTask::Index(index)),
                RepeatKept {
                    kind,
                    object,
                    items,
                },
            )),
        },
    }
}

/// Goes on with a repetition that was given an answer.
pub fn resume(
    world: &mut World,
    kept: RepeatKept,
    answer: Result<Answer, Raised>,
) -> Result<Step<RepeatKept>, OutOfMemory>
    requires kept { AllHold world.old (of_repeat_kept kept) }
    requires answer { AllHold world.old (of_ended answer) }
    ensures goes { IfOk result (λ step. Resumes kept answer world.old world.new step) }
    ensures safe { Leaves of_repeat_kept world.old world.new result }
{
    match answer {
        Ok(Answer::Value(index)) => given(world, kept, index),
        other => Ok(Step::End(other)),
    }
}
