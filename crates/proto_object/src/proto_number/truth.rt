//! The truth value of an object.
#![tactic(auto, unfolding(crate::specs::ProtoNumber::Say::number_job_say, py_node::specs::BuiltIns::place_of))]

ghost use Rattle.proto_object.specs.Below.{Ok, None, known_text, special_at, of_step, Reading, plain, AllHold, Holds, IsNode};
ghost use Rattle.std.specs.Prelude.{◌≡◌};
ghost use Rattle.py_node.specs.declared.known.Known.TheVariants as known;
ghost use Rattle.py_node.specs.declared.protocol.ProtocolTask.TheVariants as protocol;
ghost use Rattle.proto_object.specs.ProtoNumber.Truth.{bool_at, truth_asked};
ghost use Rattle.proto_object.specs.ProtoNumber.Rows.{Begins, Starts, Resumes, of_number_kept};

use crate::proto_number::NumberKept;
use crate::proto_number::asked::{method, special};
use class_world::World;
use py_node::protocol::ProtocolTask;
use py_node::{Answer, BuiltIn, Cause, Known, PyObjectRef, Step, Task};
use row_kit::int_values::truth_of;

/// The truth value of an object: one of the two fixed objects, or what its class says.
pub(crate) fn begin_truth(world: &World, o: PyObjectRef) -> Step<NumberKept>
    requires { Holds world.now (IsNode o) }
    ensures goes { Begins (protocol.IsTrue o) world.now world.now result }
    ensures safe { AllHold world.now (of_step of_number_kept result) }
{
    match truth_of(o) {
        Some(truth) => Step::End(Ok(Answer::Truth(truth))),
        None => truth_asked(world, o),
    }
}

// What an object says by itself: its special method, or else its length. Without both it counts as true.
fn truth_asked(world: &World, o: PyObjectRef) -> Step<NumberKept>
    requires { Holds world.now (IsNode o) }
    ensures goes { Starts (protocol.IsTrue o) (λ t u.
        truth_asked u (special_at u o (known_text known.Bool)) (special_at u o (known_text known.Len)) o)
        world.now world.now result }
    ensures safe { AllHold world.now (of_step of_number_kept result) }
{
    match (method(world, o, Known::Bool), method(world, o, Known::Len)) {
        (Some(_), _) => Step::Ask(special(world, o, Known::Bool), NumberKept::AfterBool),
        (None, Some(_)) => {
            let task = Task::Protocol(ProtocolTask::Length(o));
            Step::Ask(task, NumberKept::AfterLength)
        }
        (None, None) => Step::End(Ok(Answer::Truth(true))),
    }
}

// The truth value that an object of `bool` is, if it is one.
fn bool_at(world: &World, v: PyObjectRef) -> Option<bool>
    requires { Holds world.now (IsNode v) }
    ensures { (t : Reading) → bool_at (plain t world.now) v ≡ result }
{
    if world.class_of(v).0 != BuiltIn::Bool.class().0 {
        return None;
    }
    match world.number(v) {
        Some(z) => Some(z != 0),
        None => None,
    }
}

/// What the special method answers must be a truth value.
pub(crate) fn truth_given(world: &World, v: PyObjectRef) -> Step<NumberKept>
    requires { Holds world.now (IsNode v) }
    ensures goes { Resumes NumberKept.AfterBool (Ok (Answer.Value v)) world.now world.now result }
    ensures safe { AllHold world.now (of_step of_number_kept result) }
{
    match bool_at(world, v) {
        Some(truth) => Step::End(Ok(Answer::Truth(truth))),
        None => Step::raise(Cause::BoolType),
    }
}
