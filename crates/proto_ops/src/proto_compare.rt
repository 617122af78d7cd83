//! The rows of comparisons, each a small automaton: `begin` and `resume`.
#![tactic(auto, unfolding(crate::specs::ProtoCompare::Say::compare_job_say))]

ghost use Rattle.proto_ops.specs.Below.{IfOk, AllHold, of_compare_task, of_ended, Leaves};
ghost use Rattle.std.specs.Prelude.{◌≡◌};
ghost use Rattle.proto_ops.specs.ProtoCompare.Rows.{Begins, Resumes, of_compare_kept};

pub mod comparisons;
mod rich;
mod truths;
pub mod values;

use class_world::World;
use py_node::{Answer, CompareTask, OutOfMemory, PyComparisonOp, PyObjectRef, Raised, Step, Task};

/// What a row of a comparison keeps while it waits for an answer.
#[derive(Drop)]
pub enum CompareKept {
    /// The answer is passed on.
    Pass,
    /// The class of one operand is asked: whether that is the right one, and the comparison.
    First(bool, PyObjectRef, PyObjectRef, PyComparisonOp),
    /// It said nothing, and that of the other operand is asked.
    Second(PyObjectRef, PyObjectRef, PyComparisonOp),
    /// What is given counts as true, or not.
    Counts,
    /// Two items are compared for their order.
    Ordered(PyObjectRef, PyObjectRef),
    /// They are not so ordered, and might be equal.
    Equal,
}

/// Begins a task.
pub fn begin(world: &mut World, task: CompareTask) -> Result<Step<CompareKept>, OutOfMemory>
    requires { AllHold world.old (of_compare_task task) }
    ensures goes { IfOk result (λ step. Begins task world.old world.new step) }
    ensures safe { Leaves of_compare_kept world.old world.new result }
{
    match task {
        CompareTask::Compare(a, b, op) => {
            let step = rich::compare(world, a, b, op);
            Ok(step)
        }
        CompareTask::Cmp(a, b, op) => rich::cmp(world, a, b, op),
        CompareTask::RichBool(a, b, op) => Ok(Step::Ask(
            Task::Compare(CompareTask::Compare(a, b, op)),
            CompareKept::Counts,
        )),
        CompareTask::BoolEq(a, b) => Ok(Step::Ask(
            Task::Compare(CompareTask::RichBool(a, b, PyComparisonOp::Eq)),
            CompareKept::Pass,
        )),
        CompareTask::IdEq(a, b) => Ok(truths::id_eq(a, b)),
        CompareTask::SeqLt(a, b) => Ok(Step::Ask(
            Task::Compare(CompareTask::RichBool(a, b, PyComparisonOp::Lt)),
            CompareKept::Ordered(a, b),
        )),
        CompareTask::SeqGt(a, b) => Ok(Step::Ask(
            Task::Compare(CompareTask::RichBool(a, b, PyComparisonOp::Gt)),
            CompareKept::Ordered(a, b),
        )),
    }
}

/// Goes on with a task that was given an answer.
pub fn resume(
    world: &mut World,
    kept: CompareKept,
    answer: Result<Answer, Raised>,
) -> Result<Step<CompareKept>, OutOfMemory>
    requires kept { AllHold world.old (of_compare_kept kept) }
    requires answer { AllHold world.old (of_ended answer) }
    ensures goes { IfOk result (λ step. Resumes kept answer world.old world.new step) }
    ensures safe { Leaves of_compare_kept world.old world.new result }
{
    match kept {
        CompareKept::Pass => Ok(Step::End(answer)),
        CompareKept::First(right_first, a, b, op) => match answer {
            Ok(Answer::Value(x)) => Ok(rich::ask_other(right_first, a, b, op, x)),
            other => Ok(Step::End(other)),
        },
        CompareKept::Second(a, b, op) => match answer {
            Ok(Answer::Value(x)) => {
                let step = rich::by_identity(world, a, b, op, x);
                Ok(step)
            }
            other => Ok(Step::End(other)),
        },
        CompareKept::Counts => match answer {
            Ok(Answer::Value(x)) => Ok(truths::counts(x)),
            other => Ok(Step::End(other)),
        },
        CompareKept::Ordered(a, b) => {
            let step = truths::ordered(world, a, b, answer);
            Ok(step)
        }
        CompareKept::Equal => {
            let step = truths::unless_equal(world, answer);
            Ok(step)
        }
    }
}
