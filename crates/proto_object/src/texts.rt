//! An object's hash, and its texts.
#![tactic(auto, unfolding(crate::specs::Say::object_job_say, py_node::specs::BuiltIns::place_of))]

ghost use Rattle.proto_object.specs.Below.{[], IfOk, of_ended, of_step, Leaves, Reading, ended_of, plain, AllHold, Holds, IsNode, Ends, datum_at, text_of};
ghost use Rattle.std.specs.Prelude.{◌≡◌};
ghost use Rattle.py_node.specs.declared.protocol.ObjectTask.TheVariants as object;
ghost use Rattle.proto_object.specs.Texts.{hash_entry, hash_rest, is_none, is_unspecified, text_only};
ghost use Rattle.proto_object.specs.Rows.{Begins, of_object_kept};

use crate::ObjectKept;
use crate::asked::{method, special};
use class_world::args::alone;
use class_world::{Fixed, World};
use py_node::protocol::ObjectTask;
use py_node::{
    Answer, BuiltIn, Cause, Known, OutOfMemory, Payload, PyObjectRef, Raised, SlotEntry, SlotId,
    Step, Task,
};
use row_kit::int_values::number_hash;
use row_kit::proto_base::{entered, is_exactly};

/// The hash of an object, by its class's entry. A class may say by None that its objects have none.
pub(crate) fn begin_hash(world: &World, o: PyObjectRef) -> Result<Step<ObjectKept>, OutOfMemory>
    requires { Holds world.now (IsNode o) }
    ensures goes { IfOk result (λ step. Begins (object.Hash o) world.now world.now step) }
    ensures safe { Leaves of_object_kept world.now world.now result }
{
    if is_none(method(world, o, Known::Hash)) {
        return Ok(Step::raise(Cause::Unhashable));
    }
    match hash_entry(world.slot(o, SlotId::Hash)) {
        None => Ok(Step::raise(Cause::Unhashable)),
        Some(entry) => {
            let task = entered(world, entry, Known::Hash, o, &[])?;
            Ok(Step::Ask(task, ObjectKept::AfterHash))
        }
    }
}

// Whether a value is there and is None.
fn is_none(value: Option<PyObjectRef>) -> bool
    ensures { result ≡ is_none value }
{
    match value {
        None => false,
        Some(value) => value.0 == Fixed::None.node().0,
    }
}

// The entry by which the class's objects have a hash: there is none where the slot is marked so.
fn hash_entry(entry: Option<SlotEntry>) -> Option<SlotEntry>
    ensures { result ≡ hash_entry entry }
{
    match entry {
        Some(SlotEntry::Unhashable) => None,
        other => other,
    }
}

/// A native tells the number of a hash. What a special method gives must hold one, whose lowest 64 bits count.
pub(crate) fn hash_given(world: &World, answer: Result<Answer, Raised>) -> Result<Answer, Raised>
    requires { AllHold world.now (of_ended answer) }
    ensures ends { (t : Reading) → hash_rest (plain t world.now) (ended_of answer) [] ≡
        Ends (plain t world.now) (ended_of result) }
    ensures holds { AllHold world.now (of_ended result) }
{
    match answer {
        Ok(Answer::Value(v)) => match world.number(v) {
            None => Err(Raised::new(Cause::HashType)),
            Some(z) => Ok(Answer::Number(number_hash(z))),
        },
        other => other,
    }
}

/// The text that shows an object, by its class's entry.
pub(crate) fn begin_repr(world: &World, o: PyObjectRef) -> Result<Step<ObjectKept>, OutOfMemory>
    requires { Holds world.now (IsNode o) }
    ensures goes { IfOk result (λ step. Begins (object.Repr o) world.now world.now step) }
    ensures safe { Leaves of_object_kept world.now world.now result }
{
    match world.slot(o, SlotId::Repr) {
        None => Ok(Step::raise(Cause::ReprType)),
        Some(entry) => {
            let task = entered(world, entry, Known::Repr, o, &[])?;
            Ok(Step::Ask(task, ObjectKept::AfterRepr))
        }
    }
}

/// An object's text: a text of no other class is itself, and others have a special method.
pub(crate) fn begin_str(world: &World, o: PyObjectRef) -> Step<ObjectKept>
    requires { Holds world.now (IsNode o) }
    ensures goes { Begins (object.Str o) world.now world.now result }
    ensures safe { AllHold world.now (of_step of_object_kept result) }
{
    if is_exactly(world, o, BuiltIn::Str) {
        return Step::End(Ok(Answer::Value(o)));
    }
    let task = special(world, o, Known::Str, Vec::new(world.alloc()));
    Step::Ask(task, ObjectKept::AfterStr)
}

/// An object's text by a specification. Where that is empty, a text is itself, and a whole number is its text.
pub(crate) fn begin_format(
    world: &World,
    o: PyObjectRef,
    spec: PyObjectRef,
) -> Result<Step<ObjectKept>, OutOfMemory>
    requires o { Holds world.now (IsNode o) }
    requires spec { Holds world.now (IsNode spec) }
    ensures goes { IfOk result (λ step. Begins (object.Format o spec) world.now world.now step) }
    ensures safe { Leaves of_object_kept world.now world.now result }
{
    let empty = is_unspecified(world, spec);
    if empty && is_exactly(world, o, BuiltIn::Str) {
        return Ok(Step::End(Ok(Answer::Value(o))));
    }
    if empty && is_exactly(world, o, BuiltIn::Int) {
        let task = Task::Object(ObjectTask::Str(o));
        return Ok(Step::Ask(task, ObjectKept::AfterFormat));
    }
    let args = alone(world.alloc(), spec)?;
    let task = special(world, o, Known::Format, args);
    Ok(Step::Ask(task, ObjectKept::AfterFormat))
}

// Whether a specification is an empty text.
fn is_unspecified(world: &World, spec: PyObjectRef) -> bool
    requires { Holds world.now (IsNode spec) }
    ensures { (t : Reading) → is_unspecified (text_of (datum_at (plain t world.now) spec)) ≡ result }
{
    match world.payload(spec) {
        Payload::Text(text) => text.as_bytes().is_empty(),
        _ => false,
    }
}

/// What was asked for a text must give one.
pub(crate) fn text_given(
    world: &World,
    cause: Cause,
    answer: Result<Answer, Raised>,
) -> Result<Answer, Raised>
    requires { AllHold world.now (of_ended answer) }
    ensures ends { (t : Reading) → text_only (plain t world.now) cause (ended_of answer) [] ≡
        Ends (plain t world.now) (ended_of result) }
    ensures holds { AllHold world.now (of_ended result) }
{
    match answer {
        Ok(Answer::Value(v)) => match world.payload(v) {
            Payload::Text(_) => Ok(Answer::Value(v)),
            _ => Err(Raised::new(cause)),
        },
        other => other,
    }
}
