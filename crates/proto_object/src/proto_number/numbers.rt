//! The whole number that an object stands for.
#![tactic(auto, unfolding(crate::specs::ProtoNumber::Say::number_job_say))]

ghost use Rattle.proto_object.specs.Below.{Ok, IfOk, is_some, known_text, special_at, slot_at, of_step, Leaves, Reading, Reads, plain, AllHold, Holds, IsNode};
ghost use Rattle.std.specs.Prelude.{◌≡◌, ◌||◌};
ghost use Rattle.py_node.specs.declared.entry.SlotId.TheVariants as slot;
ghost use Rattle.py_node.specs.declared.known.Known.TheVariants as known;
ghost use Rattle.py_node.specs.declared.protocol.ProtocolTask.TheVariants as protocol;
ghost use Rattle.proto_object.specs.ProtoNumber.Numbers.{has_index, truncated_by, whole_by};
ghost use Rattle.proto_object.specs.ProtoNumber.Rows.{Begins, Starts, Resumes, of_number_kept};

use crate::proto_number::NumberKept;
use crate::proto_number::asked::{method, native_of, special};
use crate::proto_number::texts::text_number;
use class_world::World;
use py_node::protocol::ProtocolTask;
use py_node::{
    Answer, Cause, Known, OutOfMemory, PyObjectRef, SlotEntry, SlotId, Step, Task, caught,
};
use row_kit::int_values::{as_int, is_int};

/// An index: a number is one, of another class than `int` as a new one. Others have a special method for it.
pub(crate) fn begin_index(
    world: &mut World,
    o: PyObjectRef,
) -> Result<Step<NumberKept>, OutOfMemory>
    requires { Holds world.old (IsNode o) }
    ensures goes { IfOk result (λ step. Begins (protocol.Index o) world.old world.new step) }
    ensures safe { Leaves of_number_kept world.old world.new result }
{
    match world.number(o) {
        Some(z) => {
            let ended = caught(as_int(world, o, z))?;
            Ok(Step::End(ended))
        }
        None => match world.slot(o, SlotId::Index) {
            Some(SlotEntry::Wrapper(_)) => {
                let task = special(world, o, Known::Index);
                Ok(Step::Ask(task, NumberKept::AfterIndex))
            }
            _ => Ok(Step::raise(Cause::NotIndex)),
        },
    }
}

/// What `__index__` answers must hold a number, and is the answer.
pub(crate) fn index_given(world: &World, v: PyObjectRef) -> Step<NumberKept>
    requires { Holds world.now (IsNode v) }
    ensures goes { Resumes NumberKept.AfterIndex (Ok (Answer.Value v)) world.now world.now result }
    ensures safe { AllHold world.now (of_step of_number_kept result) }
{
    match world.number(v) {
        Some(_) => Step::End(Ok(Answer::Value(v))),
        None => Step::raise(Cause::IndexReturn),
    }
}

/// An object as a whole number: an int is itself, and for others it is what their class says.
pub(crate) fn begin_int(world: &mut World, o: PyObjectRef) -> Result<Step<NumberKept>, OutOfMemory>
    requires { Holds world.old (IsNode o) }
    ensures goes { IfOk result (λ step. Begins (protocol.Int o) world.old world.new step) }
    ensures safe { Leaves of_number_kept world.old world.new result }
{
    if is_int(world, o) {
        Ok(Step::End(Ok(Answer::Value(o))))
    } else {
        whole_by(world, o)
    }
}

// By the class's own slot, or as an index, or by the special method for truncation, or what a text spells.
fn whole_by(world: &mut World, o: PyObjectRef) -> Result<Step<NumberKept>, OutOfMemory>
    requires { Holds world.old (IsNode o) }
    ensures goes { IfOk result (λ step. Starts (protocol.Int o) (λ t u. whole_by u (slot_at u o slot.Int) o)
        world.old world.new step) }
    ensures safe { Leaves of_number_kept world.old world.new result }
{
    match world.slot(o, SlotId::Int) {
        Some(SlotEntry::Native(native)) => {
            let task = native_of(world, native, o)?;
            Ok(Step::Ask(task, NumberKept::AfterInt))
        }
        Some(_) => {
            let task = special(world, o, Known::Int);
            Ok(Step::Ask(task, NumberKept::AfterInt))
        }
        None => {
            if has_index(world, o) {
                let task = Task::Protocol(ProtocolTask::Index(o));
                return Ok(Step::Ask(task, NumberKept::Pass));
            }
            truncated_by(world, o)
        }
    }
}

// Whether an object is an index, or has a slot for that.
fn has_index(world: &World, o: PyObjectRef) -> bool
    requires { Holds world.now (IsNode o) }
    ensures { (t : Reading) → Reads t world.now → has_index (plain t world.now) o ≡ result }
{
    world.number(o).is_some() || world.slot(o, SlotId::Index).is_some()
}

// By the special method for truncation, or what a text spells.
fn truncated_by(world: &mut World, o: PyObjectRef) -> Result<Step<NumberKept>, OutOfMemory>
    requires { Holds world.old (IsNode o) }
    ensures goes { IfOk result (λ step. Starts (protocol.Int o) (λ t u.
        truncated_by u (special_at u o (known_text known.Trunc)) o) world.old world.new step) }
    ensures safe { Leaves of_number_kept world.old world.new result }
{
    match method(world, o, Known::Trunc) {
        Some(_) => {
            let task = special(world, o, Known::Trunc);
            Ok(Step::Ask(task, NumberKept::AfterTruncate))
        }
        None => {
            let ended = caught(text_number(world, o))?;
            Ok(Step::End(ended))
        }
    }
}

/// What the slot for whole numbers answers must hold a number, and is the answer.
pub(crate) fn int_given(world: &World, v: PyObjectRef) -> Step<NumberKept>
    requires { Holds world.now (IsNode v) }
    ensures goes { Resumes NumberKept.AfterInt (Ok (Answer.Value v)) world.now world.now result }
    ensures safe { AllHold world.now (of_step of_number_kept result) }
{
    match world.number(v) {
        Some(_) => Step::End(Ok(Answer::Value(v))),
        None => Step::raise(Cause::IntReturn),
    }
}

/// What truncation gives must be an index.
pub(crate) fn index_of(v: PyObjectRef) -> Step<NumberKept>
    ensures { result ≡ Step.Ask (Task.Protocol (protocol.Index v)) NumberKept.AfterIndexOf }
{
    Step::Ask(
        Task::Protocol(ProtocolTask::Index(v)),
        NumberKept::AfterIndexOf,
    )
}
