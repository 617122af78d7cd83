//! The rows by which an object stands for a truth value, a whole number or a length, each a small automaton: `begin`
//! and `resume`.
#![tactic(auto, unfolding(crate::specs::ProtoNumber::Say::number_job_say))]

ghost use Rattle.proto_object.specs.Below.{IfOk, AllHold, of_protocol_task, of_ended, Leaves};
ghost use Rattle.std.specs.Prelude.{◌≡◌};
ghost use Rattle.proto_object.specs.ProtoNumber.Rows.{Begins, Resumes, of_number_kept};

mod asked;
mod lengths;
mod numbers;
mod texts;
mod truth;

use class_world::World;
use lengths::{begin_hint, begin_length, expected, hint_called, hint_given, length_given};
use numbers::{begin_index, begin_int, index_given, index_of, int_given};
use py_node::protocol::ProtocolTask;
use py_node::{Answer, Cause, OutOfMemory, PyObjectRef, Raised, Step};
use truth::{begin_truth, truth_given};

/// What a row of a number keeps while it waits for an answer.
#[derive(Drop)]
pub enum NumberKept {
    /// The answer is passed on.
    Pass,
    /// Of a truth value: `__bool__` was asked.
    AfterBool,
    /// Of a truth value: the length was asked.
    AfterLength,
    /// Of an index: `__index__` was asked.
    AfterIndex,
    /// Of a whole number: `__int__` was asked.
    AfterInt,
    /// Of a whole number: `__trunc__` was asked.
    AfterTruncate,
    /// Of a whole number: what `__trunc__` gave was asked for its index.
    AfterIndexOf,
    /// Of a length: `__len__` was asked.
    AfterLen,
    /// Of an expected length: the length was asked. The object, and the number that was given.
    Measured(PyObjectRef, Option<i64>),
    /// Of an expected length: `__length_hint__` is bound. The number that was given.
    Expected(Option<i64>),
    /// Of an expected length: `__length_hint__` is called. The number that was given.
    Called(Option<i64>),
}

/// Begins a task.
pub fn begin(world: &mut World, task: ProtocolTask) -> Result<Step<NumberKept>, OutOfMemory>
    requires { AllHold world.old (of_protocol_task task) }
    ensures goes { IfOk result (λ step. Begins task world.old world.new step) }
    ensures safe { Leaves of_number_kept world.old world.new result }
{
    match task {
        ProtocolTask::IsTrue(o) => Ok(begin_truth(world, o)),
        ProtocolTask::Index(o) => begin_index(world, o),
        ProtocolTask::Int(o) => begin_int(world, o),
        ProtocolTask::Length(o) => begin_length(world, o),
        ProtocolTask::Hint(o, given) => Ok(begin_hint(o, given)),
        _ => Ok(Step::elsewhere()),
    }
}

/// Goes on with a task that was given an answer.
pub fn resume(
    world: &mut World,
    kept: NumberKept,
    answer: Result<Answer, Raised>,
) -> Result<Step<NumberKept>, OutOfMemory>
    requires kept { AllHold world.old (of_number_kept kept) }
    requires answer { AllHold world.old (of_ended answer) }
    ensures goes { IfOk result (λ step. Resumes kept answer world.old world.new step) }
    ensures safe { Leaves of_number_kept world.old world.new result }
{
    match kept {
        NumberKept::Pass => Ok(Step::End(answer)),
        NumberKept::AfterBool => match answer {
            Ok(Answer::Value(v)) => Ok(truth_given(world, v)),
            other => Ok(Step::End(other)),
        },
        NumberKept::AfterLength => match answer {
            Ok(Answer::Number(z)) => Ok(Step::End(Ok(Answer::Truth(z != 0)))),
            other => Ok(Step::End(other)),
        },
        NumberKept::AfterIndex => match answer {
            Ok(Answer::Value(v)) => Ok(index_given(world, v)),
            other => Ok(Step::End(other)),
        },
        NumberKept::AfterInt => match answer {
            Ok(Answer::Value(v)) => Ok(int_given(world, v)),
            other => Ok(Step::End(other)),
        },
        NumberKept::AfterTruncate => match answer {
            Ok(Answer::Value(v)) => Ok(index_of(v)),
            other => Ok(Step::End(other)),
        },
        NumberKept::AfterIndexOf => match answer {
            Err(_) => Ok(Step::raise(Cause::TruncReturn)),
            given => Ok(Step::End(given)),
        },
        NumberKept::AfterLen => match answer {
            Ok(Answer::Value(v)) => Ok(length_given(world, v)),
            other => Ok(Step::End(other)),
        },
        NumberKept::Measured(o, given) => Ok(expected(world, o, given, answer)),
        NumberKept::Expected(given) => match answer {
            Ok(Answer::Value(bound)) => Ok(hint_called(world, bound, given)),
            other => Ok(Step::End(other)),
        },
        NumberKept::Called(given) => Ok(hint_given(world, given, answer)),
    }
}
