//! Whether an object contains another: its class says so, or else its items are asked.
#![tactic(auto, unfolding(crate::specs::ProtoIter::Say::iter_job_say))]

ghost use Rattle.proto_object.specs.Below.{IfOk, Ok, of_step, Leaves, AllHold, Holds, IsNode};
ghost use Rattle.std.specs.Prelude.{◌≡◌};
ghost use Rattle.py_node.specs.declared.protocol.ProtocolTask.TheVariants as protocol;
ghost use Rattle.proto_object.specs.ProtoIter.Rows.{Begins, Resumes, of_iter_kept};

use crate::proto_iter::IterKept;
use crate::proto_iter::seek::{Search, begin_search};
use class_world::World;
use py_node::protocol::ProtocolTask;
use py_node::{Answer, Known, OutOfMemory, PyObjectRef, SlotEntry, SlotId, Step, Task};
use row_kit::int_values::truth_of;
use row_kit::proto_base::entered;

/// A native of the object's class says it, or its special method. Without both it is a search.
pub(crate) fn contains(
    world: &World,
    o: PyObjectRef,
    x: PyObjectRef,
) -> Result<Step<IterKept>, OutOfMemory>
    requires o { Holds world.now (IsNode o) }
    requires x { Holds world.now (IsNode x) }
    ensures goes { IfOk result (λ step. Begins (protocol.Contains o x) world.now world.now step) }
    ensures safe { Leaves of_iter_kept world.now world.now result }
{
    match world.slot(o, SlotId::SeqContains) {
        None => Ok(begin_search(Search::Contains, o, x)),
        Some(SlotEntry::Native(native)) => {
            let entry = SlotEntry::Native(native);
            let task = entered(world, entry, Known::Contains, o, &[x])?;
            Ok(Step::Ask(task, IterKept::AfterNative))
        }
        Some(entry) => {
            let task = entered(world, entry, Known::Contains, o, &[x])?;
            Ok(Step::Ask(task, IterKept::AfterContains))
        }
    }
}

/// A native answers True or False.
pub(crate) fn native_answered(v: PyObjectRef) -> Step<IterKept>
    ensures goes { (w : World) → Resumes IterKept.AfterNative (Ok (Answer.Value v)) w w result }
    ensures safe { (w : World) → Holds w (IsNode v) → AllHold w (of_step of_iter_kept result) }
{
    match truth_of(v) {
        Some(truth) => Step::End(Ok(Answer::Truth(truth))),
        None => Step::End(Ok(Answer::Value(v))),
    }
}

/// What the special method answers is asked for its truth value.
pub(crate) fn contains_answered(v: PyObjectRef) -> Step<IterKept>
    ensures { result ≡ Step.Ask (Task.Protocol (protocol.IsTrue v)) IterKept.Pass }
{
    Step::Ask(Task::Protocol(ProtocolTask::IsTrue(v)), IterKept::Pass)
}
