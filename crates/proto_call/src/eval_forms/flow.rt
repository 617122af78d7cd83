//! Conditions, and expressions one after another.

ghost use Rattle.std.specs.Prelude.{◌≡◌};
ghost use Rattle.proto_call.specs.Below.{of_ended, of_step, Reading, AllHold, Holds, AreNodes, IsExpression, of_node_ref, of_option};
ghost use Rattle.proto_call.specs.EvalForms.Say.{if_say, seq_say};
ghost use Rattle.proto_call.specs.EvalForms.Rows.{EndsRow, Goes, Resumes, of_eval_kept};

use crate::eval_forms::EvalKept;
use class_world::{Fixed, World};
use py_node::{Answer, Cause, EvalTask, ExprRef, ProtocolTask, PyObjectRef, Raised, Step, Task};

// Whether the condition counts as true is asked.
pub(crate) fn if_step(
    chosen: ExprRef,
    other: ExprRef,
    condition: Option<PyObjectRef>,
) -> Step<EvalKept>
    ensures goes { (w : World) → Goes (λ t u. if_say u (t.tree chosen.0) (t.tree other.0) condition) w w result }
    ensures safe { (w : World) → Holds w (IsExpression chosen) → Holds w (IsExpression other) →
        AllHold w (of_option of_node_ref condition) → AllHold w (of_step of_eval_kept result) }
{
    match condition {
        None => Step::raise(Cause::ArgCount),
        Some(object) => Step::Ask(
            Task::Protocol(ProtocolTask::IsTrue(object)),
            EvalKept::Branch(chosen, other),
        ),
    }
}

// Then the one branch or the other is evaluated.
pub(crate) fn branch(
    world: &World,
    chosen: ExprRef,
    other: ExprRef,
    answer: Result<Answer, Raised>,
) -> Step<EvalKept>
    requires kept { AllHold world.now (of_eval_kept (EvalKept.Branch chosen other)) }
    requires answer { AllHold world.now (of_ended answer) }
    ensures goes { Resumes (EvalKept.Branch chosen other) answer world.now world.now result }
    ensures safe { AllHold world.now (of_step of_eval_kept result) }
{
    match answer {
        Ok(Answer::Truth(true)) => Step::Ask(Task::Eval(EvalTask::Eval(chosen)), EvalKept::Pass),
        Ok(Answer::Truth(false)) => Step::Ask(Task::Eval(EvalTask::Eval(other)), EvalKept::Pass),
        ended => Step::End(ended),
    }
}

// The value of the last expression, or None where there is none.
pub(crate) fn seq_step(world: &World, values: &[PyObjectRef]) -> Step<EvalKept>
    requires { Holds world.now (AreNodes values.now) }
    ensures goes { EndsRow (λ t u. seq_say u values.now) world.now world.now result }
    ensures safe { AllHold world.now (of_step of_eval_kept result) }
{
    match values.last().copied() {
        Some(value) => Step::End(Ok(Answer::Value(value))),
        None => Step::End(Ok(Answer::Value(world.fixed(Fixed::None)))),
    }
}
