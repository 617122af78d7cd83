//! The natives of `object` on its text and its attributes' names, and on whether two objects are not equal.

ghost use Rattle.proto_call.specs.Below.{Ok, bindings, of_ended, AllHold, AreNodes, Holds, IsNode, is_not_implemented};
ghost use Rattle.py_node.specs.declared.entry.ObjectNative.TheVariants as object;
ghost use Rattle.proto_call.specs.Say.{object_dir, object_format, object_ne, object_str};
ghost use Rattle.proto_call.specs.Rows.{Does, OpensNone, Resumes};

use crate::CallKept;
use class_world::World;
use class_world::takes::{one, two};
use py_node::{
    Answer, Cause, CompareTask, FuncArgs, ObjectTask, Payload, ProtocolTask, PyComparisonOp,
    PyObjectRef, Raised, Step, Task,
};
use row_kit::questions::is_not_implemented;

// The text of an object is that by which it is represented.
pub(crate) fn object_str(world: &World, call: FuncArgs<'_>) -> Step<CallKept>
    requires { Holds world.now (AreNodes call.args.now) }
    ensures goes { Does object.Str (λ t u. object_str u call.entry.args.now (bindings t call.entry.kw.now)) world.now world.now result }
    ensures safe { OpensNone world.now result }
{
    match one(call) {
        Err(raised) => Step::End(Err(raised)),
        Ok(o) => Step::Ask(Task::Object(ObjectTask::Repr(o)), CallKept::Native),
    }
}

// The text of an object by a specification, of which none is known but the empty one.
pub(crate) fn object_format(world: &World, call: FuncArgs<'_>) -> Step<CallKept>
    requires { Holds world.now (AreNodes call.args.now) }
    ensures goes { Does object.Format (λ t u. object_format u call.entry.args.now (bindings t call.entry.kw.now)) world.now world.now result }
    ensures safe { OpensNone world.now result }
{
    match two(call) {
        Err(raised) => Step::End(Err(raised)),
        Ok((o, spec)) => match world.payload(spec) {
            Payload::Text(text) => {
                if text.is_empty() {
                    Step::Ask(Task::Object(ObjectTask::Str(o)), CallKept::Native)
                } else {
                    Step::raise(Cause::FormatSpec)
                }
            }
            _ => Step::raise(Cause::SelfType),
        },
    }
}

// The names of an object's attributes.
pub(crate) fn object_dir(world: &World, call: FuncArgs<'_>) -> Step<CallKept>
    requires { Holds world.now (AreNodes call.args.now) }
    ensures goes { Does object.Dir (λ t u. object_dir u call.entry.args.now (bindings t call.entry.kw.now)) world.now world.now result }
    ensures safe { OpensNone world.now result }
{
    match one(call) {
        Err(raised) => Step::End(Err(raised)),
        Ok(o) => Step::Ask(Task::Object(ObjectTask::Dir(o)), CallKept::Native),
    }
}

// Whether two objects are not equal: the class of the first is asked whether they are.
pub(crate) fn object_ne(world: &World, call: FuncArgs<'_>) -> Step<CallKept>
    requires { Holds world.now (AreNodes call.args.now) }
    ensures goes { Does object.Ne (λ t u. object_ne u call.entry.args.now (bindings t call.entry.kw.now)) world.now world.now result }
    ensures safe { OpensNone world.now result }
{
    match two(call) {
        Err(raised) => Step::End(Err(raised)),
        Ok((a, b)) => {
            let task = CompareTask::Cmp(a, b, PyComparisonOp::Eq);
            Step::Ask(Task::Compare(task), CallKept::Unequal)
        }
    }
}

// What the class says of their being equal, which must be an object.
pub(crate) fn equal_given(world: &World, answer: Result<Answer, Raised>) -> Step<CallKept>
    requires { AllHold world.now (of_ended answer) }
    ensures goes { Resumes CallKept.Unequal answer world.now world.now result }
    ensures safe { OpensNone world.now result }
{
    match answer {
        Err(raised) => Step::End(Err(raised)),
        Ok(given) => match given {
            Answer::Value(x) => turned(world, x),
            other => Step::End(Ok(other)),
        },
    }
}

// That counts as true or not, if it says anything.
fn turned(world: &World, x: PyObjectRef) -> Step<CallKept>
    requires { Holds world.now (IsNode x) }
    ensures goes { Resumes CallKept.Unequal (Ok (Answer.Value x)) world.now world.now result }
    ensures safe { OpensNone world.now result }
{
    if is_not_implemented(x) {
        Step::End(Ok(Answer::Value(x)))
    } else {
        Step::Ask(Task::Protocol(ProtocolTask::IsTrue(x)), CallKept::Turned)
    }
}
