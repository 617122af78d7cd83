//! The length of an object, and the length that it is expected to have.
#![tactic(auto, unfolding(crate::specs::ProtoNumber::Say::number_job_say))]

ghost use Rattle.proto_object.specs.Below.{IfOk, Ok, of_ended, of_step, Leaves, Reading, Reads, ended_of, plain, AllHold, Holds, IsNode};
ghost use Rattle.std.specs.Prelude.{◌≡◌};
ghost use Rattle.py_node.specs.declared.protocol.ProtocolTask.TheVariants as protocol;
ghost use Rattle.proto_object.specs.ProtoNumber.Lengths.{hinted, is_type_error, length_slot, or_given, tested};
ghost use Rattle.proto_object.specs.ProtoNumber.Rows.{Begins, Resumes, of_number_kept};

use crate::proto_number::NumberKept;
use crate::proto_number::asked::{method, native_of, special};
use class_world::{Fixed, World};
use py_node::protocol::ProtocolTask;
use py_node::{
    Answer, AttributeTask, CallTask, Cause, Kind, Known, OutOfMemory, PyObjectRef, Raised,
    SlotEntry, SlotId, Step, Task,
};

/// The length of a sequence, or else of a mapping: by a native, or by the special method.
pub(crate) fn begin_length(world: &World, o: PyObjectRef) -> Result<Step<NumberKept>, OutOfMemory>
    requires { Holds world.now (IsNode o) }
    ensures goes { IfOk result (λ step. Begins (protocol.Length o) world.now world.now step) }
    ensures safe { Leaves of_number_kept world.now world.now result }
{
    match length_slot(world, o) {
        None => Ok(Step::raise(Cause::NoLength)),
        Some(SlotEntry::Native(native)) => {
            let task = native_of(world, native, o)?;
            Ok(Step::Ask(task, NumberKept::Pass))
        }
        Some(_) => {
            let task = special(world, o, Known::Len);
            Ok(Step::Ask(task, NumberKept::AfterLen))
        }
    }
}

// The slot for the length of a sequence, or else of a mapping.
fn length_slot(world: &World, o: PyObjectRef) -> Option<SlotEntry>
    requires { Holds world.now (IsNode o) }
    ensures { (t : Reading) → Reads t world.now → length_slot (plain t world.now) o ≡ result }
{
    match world.slot(o, SlotId::SeqLength) {
        None => world.slot(o, SlotId::MapLength),
        entry => entry,
    }
}

/// A length that `__len__` answers.
pub(crate) fn length_given(world: &World, v: PyObjectRef) -> Step<NumberKept>
    requires { Holds world.now (IsNode v) }
    ensures goes { Resumes NumberKept.AfterLen (Ok (Answer.Value v)) world.now world.now result }
    ensures safe { AllHold world.now (of_step of_number_kept result) }
{
    Step::End(tested(world.number(v)))
}

// A length must be a number, not below zero, and an index.
fn tested(number: Option<i128>) -> Result<Answer, Raised>
    ensures ended { ended_of result ≡ tested number }
    ensures holds { (w : World) → AllHold w (of_ended result) }
{
    match number {
        None => Err(Raised::new(Cause::LengthType)),
        Some(z) if z < 0 => Err(Raised::new(Cause::NegativeLength)),
        Some(z) if z <= i64::MAX as i128 => Ok(Answer::Number(z as i64)),
        Some(_) => Err(Raised::new(Cause::IndexRange)),
    }
}

/// A length, or what an object expects it to be: first the length is asked.
pub(crate) fn begin_hint(o: PyObjectRef, given: Option<i64>) -> Step<NumberKept>
    ensures { result ≡ Step.Ask (Task.Protocol (protocol.Length o)) (NumberKept.Measured o given) }
{
    Step::Ask(
        Task::Protocol(ProtocolTask::Length(o)),
        NumberKept::Measured(o, given),
    )
}

// Whether a fault is a TypeError.
fn is_type_error(kind: Kind) -> bool
    ensures { result ≡ is_type_error kind }
{
    kind == Kind::TypeError
}

// What is given in the place of a length, if anything.
fn or_given(given: Option<i64>) -> Answer
    ensures answer { ended_of (Ok result) ≡ or_given given }
    ensures holds { (w : World) → AllHold w (of_ended (Ok result)) }
{
    match given {
        None => Answer::Maybe(None),
        Some(z) => Answer::Number(z),
    }
}

/// Where an object is of another kind than those with a length, its special method for what it expects is bound.
pub(crate) fn expected(
    world: &World,
    o: PyObjectRef,
    given: Option<i64>,
    answer: Result<Answer, Raised>,
) -> Step<NumberKept>
    requires o { Holds world.now (IsNode o) }
    requires answer { AllHold world.now (of_ended answer) }
    ensures goes { Resumes (NumberKept.Measured o given) answer world.now world.now result }
    ensures safe { AllHold world.now (of_step of_number_kept result) }
{
    match answer {
        Ok(length) => Step::End(Ok(length)),
        Err(raised) => {
            if !is_type_error(raised.kind) {
                return Step::End(Err(raised));
            }
            match method(world, o, Known::LengthHint) {
                None => Step::End(Ok(or_given(given))),
                Some(hint) => {
                    let task = AttributeTask::Bind(hint, Some(o), world.type_object(o));
                    Step::Ask(Task::Attribute(task), NumberKept::Expected(given))
                }
            }
        }
    }
}

/// What is bound so is called, with nothing.
pub(crate) fn hint_called(world: &World, bound: PyObjectRef, given: Option<i64>) -> Step<NumberKept>
    requires { Holds world.now (IsNode bound) }
    ensures goes { Resumes (NumberKept.Expected given) (Ok (Answer.Value bound)) world.now world.now result }
    ensures safe { AllHold world.now (of_step of_number_kept result) }
{
    let alloc = world.alloc();
    let task = CallTask::Call(bound, Vec::new(alloc), Vec::new(alloc));
    Step::Ask(Task::Call(task), NumberKept::Called(given))
}

/// What it answers is a length, unless it says nothing.
pub(crate) fn hint_given(
    world: &World,
    given: Option<i64>,
    answer: Result<Answer, Raised>,
) -> Step<NumberKept>
    requires { AllHold world.now (of_ended answer) }
    ensures goes { Resumes (NumberKept.Called given) answer world.now world.now result }
    ensures safe { AllHold world.now (of_step of_number_kept result) }
{
    match answer {
        Ok(Answer::Value(v)) => Step::End(hinted(world, given, v)),
        Ok(other) => Step::End(Ok(other)),
        Err(raised) => {
            if is_type_error(raised.kind) {
                Step::End(Ok(or_given(given)))
            } else {
                Step::End(Err(raised))
            }
        }
    }
}

// The length that an object is, unless it is NotImplemented.
fn hinted(world: &World, given: Option<i64>, v: PyObjectRef) -> Result<Answer, Raised>
    requires { Holds world.now (IsNode v) }
    ensures ended { (t : Reading) → ended_of result ≡ hinted (plain t world.now) given v }
    ensures holds { AllHold world.now (of_ended result) }
{
    if v.0 == Fixed::NotImplemented.node().0 {
        Ok(or_given(given))
    } else {
        tested(world.number(v))
    }
}
