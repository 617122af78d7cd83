//! Whether comparisons hold, and what two items decide of the order of what has them.

ghost use Rattle.proto_ops.specs.Below.{Ok, of_ended, of_step, AllHold, Holds, IsNode};
ghost use Rattle.std.specs.Prelude.{◌≡◌};
ghost use Rattle.py_node.specs.declared.protocol.CompareTask.TheVariants as compare;
ghost use Rattle.proto_ops.specs.ProtoCompare.Say.{truth_of};
ghost use Rattle.proto_ops.specs.ProtoCompare.Rows.{Begins, Resumes, of_compare_kept};

use crate::proto_compare::CompareKept;
use class_world::{Fixed, World};
use py_node::{Answer, CompareTask, ProtocolTask, PyObjectRef, Raised, Step, Task};

// What a comparison gives counts as it is where it is True or False. Anything else is asked.
pub(crate) fn counts(x: PyObjectRef) -> Step<CompareKept>
    ensures goes { (w : World) → Resumes CompareKept.Counts (Ok (Answer.Value x)) w w result }
    ensures safe { (w : World) → Holds w (IsNode x) → AllHold w (of_step of_compare_kept result) }
{
    match truth_of(x) {
        Some(truth) => Step::End(Ok(Answer::Truth(truth))),
        None => Step::Ask(Task::Protocol(ProtocolTask::IsTrue(x)), CompareKept::Pass),
    }
}

// The truth value that an object is, if it is one.
fn truth_of(object: PyObjectRef) -> Option<bool>
    ensures { result ≡ truth_of object }
{
    if object.0 == Fixed::True.node().0 {
        Some(true)
    } else if object.0 == Fixed::False.node().0 {
        Some(false)
    } else {
        None
    }
}

// An object is equal to itself, which is not asked.
pub(crate) fn id_eq(a: PyObjectRef, b: PyObjectRef) -> Step<CompareKept>
    ensures goes { (w : World) → Begins (compare.IdEq a b) w w result }
    ensures safe { (w : World) → Holds w (IsNode a) → Holds w (IsNode b) → AllHold w (of_step of_compare_kept result) }
{
    if a.0 == b.0 {
        Step::End(Ok(Answer::Truth(true)))
    } else {
        Step::Ask(Task::Compare(CompareTask::BoolEq(a, b)), CompareKept::Pass)
    }
}

// Two items that are so ordered decide. Where they are not, they might be equal.
pub(crate) fn ordered(
    world: &World,
    a: PyObjectRef,
    b: PyObjectRef,
    answer: Result<Answer, Raised>,
) -> Step<CompareKept>
    requires kept { AllHold world.now (of_compare_kept (CompareKept.Ordered a b)) }
    requires answer { AllHold world.now (of_ended answer) }
    ensures goes { Resumes (CompareKept.Ordered a b) answer world.now world.now result }
    ensures safe { AllHold world.now (of_step of_compare_kept result) }
{
    match answer {
        Ok(Answer::Truth(true)) => Step::End(Ok(Answer::Maybe(Some(world.truth(true))))),
        Ok(Answer::Truth(false)) => {
            Step::Ask(Task::Compare(CompareTask::BoolEq(a, b)), CompareKept::Equal)
        }
        other => Step::End(other),
    }
}

// Items that are equal decide nothing.
pub(crate) fn unless_equal(world: &World, answer: Result<Answer, Raised>) -> Step<CompareKept>
    requires { AllHold world.now (of_ended answer) }
    ensures goes { Resumes CompareKept.Equal answer world.now world.now result }
    ensures safe { AllHold world.now (of_step of_compare_kept result) }
{
    match answer {
        Ok(Answer::Truth(true)) => Step::End(Ok(Answer::Maybe(None))),
        Ok(Answer::Truth(false)) => Step::End(Ok(Answer::Maybe(Some(world.truth(false))))),
        other => Step::End(other),
    }
}
