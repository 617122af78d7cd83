//! Operations: the word's task, or what it reads of the operands by itself.

ghost use Rattle.proto_call.specs.Below.{IfOk, AllHold, Holds, IsNode, AreNodes, of_step, Leaves, two_of};
ghost use Rattle.std.specs.Prelude.{◌≡◌};
ghost use Rattle.proto_call.specs.EvalForms.Words.{asked, callable_of, format_of, has_attr_of, is_of, one_of, op_say, task_for, type_of};
ghost use Rattle.proto_call.specs.EvalForms.Rows.{Goes, of_eval_kept};

use crate::eval_forms::bounds::{counted_step, del_slice_step, set_slice_step, slice_step};
use crate::eval_forms::manner::{Manner, manner_of};
use crate::eval_forms::outcome::Outcome;
use crate::eval_forms::tasks::task_for;
use crate::eval_forms::{EvalKept, one_of};
use class_world::World;
use class_world::args::two_of;
use py_node::{
    Answer, AttributeTask, Cause, ObjectTask, OutOfMemory, Payload, PyObjectRef, SlotId, Step,
    Task, Word, caught,
};

// What the word says of the values of the operands.
pub(crate) fn op_step(
    world: &mut World,
    word: Word,
    values: &[PyObjectRef],
) -> Result<Step<EvalKept>, OutOfMemory>
    requires { Holds world.old (AreNodes values.now) }
    ensures goes { IfOk result (λ step. Goes (λ t u. op_say u word values.now) world.old world.new step) }
    ensures safe { Leaves of_eval_kept world.old world.new result }
{
    match manner_of(word) {
        Manner::HasAttr => has_attr_step(world, values),
        Manner::Asks(outcome) => {
            let step = ask_for(world, word, outcome, values);
            Ok(step)
        }
        Manner::Counts(counted) => Ok(counted_step(counted, values)),
        Manner::Slices => Ok(slice_step(values)),
        Manner::SetsSlice => Ok(set_slice_step(values)),
        Manner::DeletesSlice => Ok(del_slice_step(values)),
        Manner::IsSame => {
            let step = is_step(world, values);
            Ok(step)
        }
        Manner::TypeOf => {
            let step = type_step(world, values);
            Ok(step)
        }
        Manner::IsCallable => {
            let step = callable_step(world, values);
            Ok(step)
        }
        Manner::Formats => {
            let step = format_step(world, values);
            Ok(step)
        }
    }
}

// The word's task is asked, and this is made of its answer.
fn ask_for(world: &World, word: Word, outcome: Outcome, values: &[PyObjectRef]) -> Step<EvalKept>
    requires { Holds world.now (AreNodes values.now) }
    ensures goes { Goes (λ t u. asked u outcome (task_for word values.now)) world.now world.now result }
    ensures safe { AllHold world.now (of_step of_eval_kept result) }
{
    match task_for(world, word, values) {
        None => Step::raise(Cause::ArgCount),
        Some(task) => Step::Ask(task, EvalKept::Made(outcome)),
    }
}

// Whether the two operands are the same object.
fn is_step(world: &World, values: &[PyObjectRef]) -> Step<EvalKept>
    requires { Holds world.now (AreNodes values.now) }
    ensures goes { Goes (λ t u. is_of u (two_of values.now)) world.now world.now result }
    ensures safe { AllHold world.now (of_step of_eval_kept result) }
{
    match two_of(values) {
        None => Step::raise(Cause::ArgCount),
        Some((a, b)) => Step::End(Ok(Answer::Value(world.truth(a.0 == b.0)))),
    }
}

// The operand's class, as an object.
fn type_step(world: &World, values: &[PyObjectRef]) -> Step<EvalKept>
    requires { Holds world.now (AreNodes values.now) }
    ensures goes { Goes (λ t u. type_of u (one_of values.now)) world.now world.now result }
    ensures safe { AllHold world.now (of_step of_eval_kept result) }
{
    match one_of(values) {
        None => Step::raise(Cause::ArgCount),
        Some(object) => Step::End(Ok(Answer::Value(world.type_object(object)))),
    }
}

// Whether the operand's class says how it is called.
fn callable_step(world: &World, values: &[PyObjectRef]) -> Step<EvalKept>
    requires { Holds world.now (AreNodes values.now) }
    ensures goes { Goes (λ t u. callable_of u (one_of values.now)) world.now world.now result }
    ensures safe { AllHold world.now (of_step of_eval_kept result) }
{
    match one_of(values) {
        None => Step::raise(Cause::ArgCount),
        Some(object) => {
            let callable = world.slot(object, SlotId::Call).is_some();
            Step::End(Ok(Answer::Value(world.truth(callable))))
        }
    }
}

// An object as a text by a specification, which must be a text.
fn format_step(world: &World, values: &[PyObjectRef]) -> Step<EvalKept>
    requires { Holds world.now (AreNodes values.now) }
    ensures goes { Goes (λ t u. format_of u (two_of values.now)) world.now world.now result }
    ensures safe { AllHold world.now (of_step of_eval_kept result) }
{
    match two_of(values) {
        None => Step::raise(Cause::ArgCount),
        Some((object, spec)) => match world.payload(spec) {
            Payload::Text(_) => Step::Ask(
                Task::Object(ObjectTask::Format(object, spec)),
                EvalKept::Pass,
            ),
            _ => Step::raise(Cause::SelfType),
        },
    }
}

// Whether an object has an attribute of a name, which must be a text.
fn has_attr_step(world: &mut World, values: &[PyObjectRef]) -> Result<Step<EvalKept>, OutOfMemory>
    requires { Holds world.old (AreNodes values.now) }
    ensures goes { IfOk result (λ step. Goes (λ t u. has_attr_of u (two_of values.now)) world.old world.new step) }
    ensures safe { Leaves of_eval_kept world.old world.new result }
{
    match two_of(values) {
        None => Ok(Step::raise(Cause::ArgCount)),
        Some((object, text)) => match caught(world.name_in(text))? {
            Err(raised) => Ok(Step::End(Err(raised))),
            Ok(name) => Ok(Step::Ask(
                Task::Attribute(AttributeTask::HasAttr(object, name)),
                EvalKept::Made(Outcome::Truth),
            )),
        },
    }
}
