//! The rows of iterations, each a small automaton: `begin` and `resume`.
#![tactic(auto, unfolding(crate::specs::ProtoIter::Say::iter_job_say))]

ghost use Rattle.proto_object.specs.Below.{IfOk, of_ended, of_protocol_task, Leaves, AllHold};
ghost use Rattle.std.specs.Prelude.{◌≡◌};
ghost use Rattle.proto_object.specs.ProtoIter.Rows.{Begins, Resumes, of_iter_kept};

mod contain;
mod iteration;
mod seek;

use crate::proto_iter::contain::{contains, contains_answered, native_answered};
use crate::proto_iter::iteration::{
    begin_items, collect, get_iter, item_collected, iterator_given, next, next_given,
};
use crate::proto_iter::seek::{
    Search, Seeking, begin_search, equal_given, item_given, search_items,
};
use class_world::World;
use py_node::protocol::ProtocolTask;
use py_node::{Answer, OutOfMemory, PyObjectRef, Raised, Step};

/// What a row of an iteration keeps while it waits for an answer.
#[derive(Drop)]
pub enum IterKept {
    /// The answer is passed on.
    Pass,
    /// Of a beginning: what the class says of it was asked.
    AfterIter,
    /// Of a next item: what the class says of it was asked.
    AfterNext,
    /// Of all items: the iteration begins.
    Beginning,
    /// Of all items: the next one was asked. The iterator, and the items so far.
    Collecting(PyObjectRef, Vec<PyObjectRef>),
    /// Of a containment: a native of the class was asked.
    AfterNative,
    /// Of a containment: `__contains__` was asked.
    AfterContains,
    /// Of a search: the iteration begins. What is sought.
    Begun(Search, PyObjectRef),
    /// Of a search: the next item was asked.
    Next(Seeking),
    /// Of a search: an item was asked whether it is equal.
    Equal(Seeking),
}

/// Begins a task.
pub fn begin(world: &mut World, task: ProtocolTask) -> Result<Step<IterKept>, OutOfMemory>
    requires { AllHold world.old (of_protocol_task task) }
    ensures goes { IfOk result (λ step. Begins task world.old world.new step) }
    ensures safe { Leaves of_iter_kept world.old world.new result }
{
    match task {
        ProtocolTask::GetIter(o) => get_iter(world, o),
        ProtocolTask::Next(o) => next(world, o),
        ProtocolTask::Collect(o) => collect(world, o),
        ProtocolTask::Contains(o, x) => contains(world, o, x),
        ProtocolTask::Count(o, x) => Ok(begin_search(Search::Count, o, x)),
        ProtocolTask::Find(o, x) => Ok(begin_search(Search::Find, o, x)),
        _ => Ok(Step::elsewhere()),
    }
}

/// Goes on with a task that was given an answer.
pub fn resume(
    world: &mut World,
    kept: IterKept,
    answer: Result<Answer, Raised>,
) -> Result<Step<IterKept>, OutOfMemory>
    requires kept { AllHold world.old (of_iter_kept kept) }
    requires answer { AllHold world.old (of_ended answer) }
    ensures goes { IfOk result (λ step. Resumes kept answer world.old world.new step) }
    ensures safe { Leaves of_iter_kept world.old world.new result }
{
    match kept {
        IterKept::Pass => Ok(Step::End(answer)),
        IterKept::AfterIter => match answer {
            Ok(Answer::Value(iterator)) => Ok(iterator_given(world, iterator)),
            other => Ok(Step::End(other)),
        },
        IterKept::AfterNext => Ok(next_given(answer)),
        IterKept::Beginning => match answer {
            Ok(Answer::Value(iterator)) => Ok(begin_items(world, iterator)),
            other => Ok(Step::End(other)),
        },
        IterKept::Collecting(iterator, items) => item_collected(world, iterator, items, answer),
        IterKept::AfterNative => match answer {
            Ok(Answer::Value(v)) => Ok(native_answered(v)),
            other => Ok(Step::End(other)),
        },
        IterKept::AfterContains => match answer {
            Ok(Answer::Value(v)) => Ok(contains_answered(v)),
            other => Ok(Step::End(other)),
        },
        IterKept::Begun(search, needle) => match answer {
            Ok(Answer::Value(iterator)) => Ok(search_items(search, iterator, needle)),
            other => Ok(Step::End(other)),
        },
        IterKept::Next(seeking) => Ok(item_given(seeking, answer)),
        IterKept::Equal(seeking) => Ok(equal_given(seeking, answer)),
    }
}
