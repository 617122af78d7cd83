//! The rows of items, slices and of a mapping's keys, values and items, each a small automaton: `begin` and `resume`.
#![tactic(auto, unfolding(crate::specs::ProtoItems::Say::items_job_say))]

ghost use Rattle.proto_object.specs.Below.{IfOk, of_ended, of_protocol_task, Leaves, AllHold};
ghost use Rattle.std.specs.Prelude.{◌≡◌};
ghost use Rattle.proto_object.specs.ProtoItems.Rows.{Begins, Resumes, of_items_kept};

mod items;
mod listed;
mod slices;
mod views;

use class_world::World;
use items::{begin_delete, begin_get, begin_set, class_given, index_given};
use listed::{gather, iterated, listed};
use py_node::protocol::ProtocolTask;
use py_node::task::Args;
use py_node::{Answer, OutOfMemory, PyObjectRef, Raised, Step};
use slices::{begin_delete_slice, begin_get_slice, begin_set_slice};
use views::{begin_items, begin_keys, begin_values, loaded};

/// What a row of items, slices or a mapping keeps while it waits for an answer.
#[derive(Drop)]
pub enum ItemsKept {
    /// The answer is passed on.
    Pass,
    /// Of an item of a sequence: the key is asked for its number. The sequence.
    AfterIndex(PyObjectRef),
    /// Of an item of a class: `__class_getitem__` is asked. The key.
    AfterClass(PyObjectRef),
    /// Something is set or taken out. It is done then, whatever is answered.
    Ending,
    /// Of a mapping: its method is loaded.
    Loaded,
    /// Of a mapping: its method is called.
    Invoked,
    /// Of a mapping: an iteration of what its method gave begins.
    Iterating,
    /// Of a mapping: the next item of that is asked. The iterator, and the items so far.
    Gathering(PyObjectRef, Args),
}

/// Begins a task.
pub fn begin(world: &mut World, task: ProtocolTask) -> Result<Step<ItemsKept>, OutOfMemory>
    requires { AllHold world.old (of_protocol_task task) }
    ensures goes { IfOk result (λ step. Begins task world.old world.new step) }
    ensures safe { Leaves of_items_kept world.old world.new result }
{
    match task {
        ProtocolTask::GetItem(o, key) => begin_get(world, o, key),
        ProtocolTask::SetItem(o, key, value) => begin_set(world, o, key, value),
        ProtocolTask::DelItem(o, key) => begin_delete(world, o, key),
        ProtocolTask::GetSlice(o, start, stop) => begin_get_slice(world, o, start, stop),
        ProtocolTask::SetSlice(o, start, stop, value) => {
            begin_set_slice(world, o, start, stop, value)
        }
        ProtocolTask::DelSlice(o, start, stop) => begin_delete_slice(world, o, start, stop),
        ProtocolTask::Keys(o) => begin_keys(world, o),
        ProtocolTask::Values(o) => begin_values(world, o),
        ProtocolTask::Items(o) => begin_items(world, o),
        _ => Ok(Step::elsewhere()),
    }
}

/// Goes on with a task that was given an answer.
pub fn resume(
    world: &mut World,
    kept: ItemsKept,
    answer: Result<Answer, Raised>,
) -> Result<Step<ItemsKept>, OutOfMemory>
    requires kept { AllHold world.old (of_items_kept kept) }
    requires answer { AllHold world.old (of_ended answer) }
    ensures goes { IfOk result (λ step. Resumes kept answer world.old world.new step) }
    ensures safe { Leaves of_items_kept world.old world.new result }
{
    match kept {
        ItemsKept::Pass => Ok(Step::End(answer)),
        ItemsKept::AfterIndex(o) => match answer {
            Ok(Answer::Value(index)) => index_given(world, o, index),
            other => Ok(Step::End(other)),
        },
        ItemsKept::AfterClass(key) => class_given(world, key, answer),
        ItemsKept::Ending => match answer {
            Ok(_) => Ok(Step::End(Ok(Answer::Done))),
            Err(raised) => Ok(Step::End(Err(raised))),
        },
        ItemsKept::Loaded => match answer {
            Ok(Answer::Method(method)) => Ok(loaded(world, method)),
            other => Ok(Step::End(other)),
        },
        ItemsKept::Invoked => match answer {
            Ok(Answer::Value(given)) => Ok(listed(world, given)),
            other => Ok(Step::End(other)),
        },
        ItemsKept::Iterating => Ok(iterated(world, answer)),
        ItemsKept::Gathering(iterator, items) => gather(world, iterator, items, answer),
    }
}
