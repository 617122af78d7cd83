//! How an iteration begins, its next item, and all its items.
#![tactic(auto, unfolding(crate::specs::ProtoIter::Say::iter_job_say))]

ghost use Rattle.proto_object.specs.Below.{IfErr, IfOk, Ok, of_ended, of_step, Leaves, AllHold, AreNodes, Holds, IsNode};
ghost use Rattle.std.specs.Prelude.{◌≡◌};
ghost use Rattle.py_node.specs.declared.protocol.ProtocolTask.TheVariants as protocol;
ghost use Rattle.proto_object.specs.ProtoIter.Rows.{Begins, IsItem, IsNoItem, Resumes, of_iter_kept};

use crate::proto_iter::IterKept;
use class_world::World;
use class_world::args::copy_args;
use class_world::limits::is_within_limit;
use py_node::protocol::ProtocolTask;
use py_node::{
    Answer, Cause, Kind, Known, OutOfMemory, PyObjectRef, Raised, SlotId, Step, Task, caught,
};
use row_kit::give::new_iterator;
use row_kit::proto_base::{entered, is_plain};
use row_kit::take_containers::items;

/// An iteration begins as the object's class says, or else it goes over the object's items by their places.
pub(crate) fn get_iter(world: &mut World, o: PyObjectRef) -> Result<Step<IterKept>, OutOfMemory>
    requires { Holds world.old (IsNode o) }
    ensures goes { IfOk result (λ step. Begins (protocol.GetIter o) world.old world.new step) }
    ensures safe { Leaves of_iter_kept world.old world.new result }
{
    match world.slot(o, SlotId::Iter) {
        Some(entry) => {
            let task = entered(world, entry, Known::Iter, o, &[])?;
            Ok(Step::Ask(task, IterKept::AfterIter))
        }
        None => {
            if world.slot(o, SlotId::SeqItem).is_none() {
                return Ok(Step::raise(Cause::NotIterable));
            }
            let ended = caught(new_iterator(world, o))?;
            Ok(Step::End(ended))
        }
    }
}

/// What an iteration begins with must have a next item.
pub(crate) fn iterator_given(world: &World, iterator: PyObjectRef) -> Step<IterKept>
    requires { Holds world.now (IsNode iterator) }
    ensures goes { Resumes IterKept.AfterIter (Ok (Answer.Value iterator)) world.now world.now result }
    ensures safe { AllHold world.now (of_step of_iter_kept result) }
{
    match world.slot(iterator, SlotId::Iternext) {
        Some(_) => Step::End(Ok(Answer::Value(iterator))),
        None => Step::raise(Cause::NotIterator),
    }
}

/// The next item, as the iterator's class says.
pub(crate) fn next(world: &World, o: PyObjectRef) -> Result<Step<IterKept>, OutOfMemory>
    requires { Holds world.now (IsNode o) }
    ensures goes { IfOk result (λ step. Begins (protocol.Next o) world.now world.now step) }
    ensures safe { Leaves of_iter_kept world.now world.now result }
{
    match world.slot(o, SlotId::Iternext) {
        Some(entry) => {
            let task = entered(world, entry, Known::Next, o, &[])?;
            Ok(Step::Ask(task, IterKept::AfterNext))
        }
        None => Ok(Step::raise(Cause::NotIterator)),
    }
}

/// StopIteration is the end of an iteration.
pub(crate) fn next_given(answer: Result<Answer, Raised>) -> Step<IterKept>
    ensures goes { (w : World) → Resumes IterKept.AfterNext answer w w result }
    ensures safe { (w : World) → AllHold w (of_ended answer) → AllHold w (of_step of_iter_kept result) }
{
    match answer {
        Ok(item) => Step::End(Ok(item)),
        Err(raised) => {
            if raised.kind == Kind::StopIteration {
                Step::End(Ok(Answer::Exhausted))
            } else {
                Step::End(Err(raised))
            }
        }
    }
}

/// All items: those of a tuple or a list at once, and those of any other object by an iteration.
pub(crate) fn collect(world: &World, o: PyObjectRef) -> Result<Step<IterKept>, OutOfMemory>
    requires { Holds world.now (IsNode o) }
    ensures goes { IfOk result (λ step. Begins (protocol.Collect o) world.now world.now step) }
    ensures safe { Leaves of_iter_kept world.now world.now result }
{
    if is_plain(world, o) {
        let items = copy_args(world.alloc(), items(world, o))?;
        Ok(Step::End(Ok(Answer::Objects(items))))
    } else {
        let task = ProtocolTask::GetIter(o);
        Ok(Step::Ask(Task::Protocol(task), IterKept::Beginning))
    }
}

/// The first item is asked for.
pub(crate) fn begin_items(world: &World, iterator: PyObjectRef) -> Step<IterKept>
    requires { Holds world.now (IsNode iterator) }
    ensures goes { Resumes IterKept.Beginning (Ok (Answer.Value iterator)) world.now world.now result }
    ensures safe { AllHold world.now (of_step of_iter_kept result) }
{
    let items = Vec::new(world.alloc());
    let task = ProtocolTask::Next(iterator);
    Step::Ask(Task::Protocol(task), IterKept::Collecting(iterator, items))
}

/// The item that was answered, if there was one, or else another answer as it is.
pub(crate) fn item_of(
    answer: Result<Answer, Raised>,
) -> Result<Option<PyObjectRef>, Result<Answer, Raised>>
    ensures item { IfOk result (λ o. IsItem o answer) }
    ensures same { IfErr result (λ other. other ≡ answer) }
    ensures other { IfErr result (λ _. IsNoItem answer) }
{
    match answer {
        Ok(Answer::Value(item)) => Ok(Some(item)),
        Ok(Answer::Exhausted) => Ok(None),
        other => Err(other),
    }
}

/// One more item, after which the next one is asked for, or the end.
pub(crate) fn item_collected(
    world: &World,
    iterator: PyObjectRef,
    items: Vec<PyObjectRef>,
    answer: Result<Answer, Raised>,
) -> Result<Step<IterKept>, OutOfMemory>
    requires iterator { Holds world.now (IsNode iterator) }
    requires items { Holds world.now (AreNodes items.items) }
    requires answer { AllHold world.now (of_ended answer) }
    ensures goes { IfOk result (λ step.
        Resumes (IterKept.Collecting iterator items) answer world.now world.now step) }
    ensures safe { Leaves of_iter_kept world.now world.now result }
{
    match item_of(answer) {
        Ok(Some(item)) => {
            let mut more = items;
            more.push(item)?;
            if !is_within_limit(more.len()) {
                return Ok(Step::raise(Cause::TooLong));
            }
            let task = ProtocolTask::Next(iterator);
            Ok(Step::Ask(Task::Protocol(task), IterKept::Collecting(iterator, more)))
        }
        Ok(None) => Ok(Step::End(Ok(Answer::Objects(items)))),
        Err(other) => Ok(Step::End(other)),
    }
}
