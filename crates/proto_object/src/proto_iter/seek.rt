//! Searches: the items of an iteration are asked one after another whether they are equal to an object.
#![tactic(auto, unfolding(crate::specs::ProtoIter::Say::iter_job_say))]

ghost use Rattle.proto_object.specs.Below.{ℕ, IfErr, IfOk, Ok, Err, of_ended, of_step, ended_of, AllHold, Holds, IsNode};
ghost use Rattle.std.specs.Prelude.{◌≡◌, ◌+◌};
ghost use Rattle.py_node.specs.declared.protocol.ProtocolTask.TheVariants as protocol;
ghost use Rattle.proto_object.specs.ProtoIter.Iteration.{counted};
ghost use Rattle.proto_object.specs.ProtoIter.Rows.{CountsAlike, IsNoTruth, Resumes, last_of, of_iter_kept, of_seeking, turn_of};

use crate::proto_iter::IterKept;
use crate::proto_iter::iteration::item_of;
use class_world::World;
use py_node::protocol::{CompareTask, ProtocolTask};
use py_node::{Answer, Cause, PyObjectRef, Raised, Step, Task};

/// What is sought among the items of an iteration.
#[derive(Clone, Copy)]
pub enum Search {
    /// Whether one of them is equal to an object.
    Contains,
    /// How many of them are.
    Count,
    /// How many stand before the first that is.
    Find,
}

/// A search: the iterator, what its items are compared with, and how many of them count so far.
#[derive(Clone, Copy)]
pub struct Seeking {
    pub search: Search,
    pub iterator: PyObjectRef,
    pub needle: PyObjectRef,
    pub number: u64,
}

/// A search begins with an iteration over an object.
pub(crate) fn begin_search(search: Search, o: PyObjectRef, x: PyObjectRef) -> Step<IterKept>
    ensures { result ≡ Step.Ask (Task.Protocol (protocol.GetIter o)) (IterKept.Begun search x) }
{
    Step::Ask(
        Task::Protocol(ProtocolTask::GetIter(o)),
        IterKept::Begun(search, x),
    )
}

/// The first item is asked for.
pub(crate) fn search_items(
    search: Search,
    iterator: PyObjectRef,
    needle: PyObjectRef,
) -> Step<IterKept>
    ensures goes { (w : World) → Resumes (IterKept.Begun search needle) (Ok (Answer.Value iterator)) w w result }
    ensures safe { (w : World) → Holds w (IsNode iterator) → Holds w (IsNode needle) →
        AllHold w (of_step of_iter_kept result) }
{
    next_item(Seeking {
        search,
        iterator,
        needle,
        number: 0,
    })
}

// The next item is asked for.
fn next_item(seeking: Seeking) -> Step<IterKept>
    ensures { result ≡ Step.Ask (Task.Protocol (protocol.Next seeking.iterator)) (IterKept.Next seeking) }
{
    let task = ProtocolTask::Next(seeking.iterator);
    Step::Ask(Task::Protocol(task), IterKept::Next(seeking))
}

/// An item is asked whether it is equal to what is sought. At the end of the items the search ends.
pub(crate) fn item_given(seeking: Seeking, answer: Result<Answer, Raised>) -> Step<IterKept>
    ensures goes { (w : World) → Resumes (IterKept.Next seeking) answer w w result }
    ensures safe { (w : World) → AllHold w (of_seeking seeking) → AllHold w (of_ended answer) →
        AllHold w (of_step of_iter_kept result) }
{
    match item_of(answer) {
        Ok(Some(item)) => {
            let task = CompareTask::BoolEq(item, seeking.needle);
            Step::Ask(Task::Compare(task), IterKept::Equal(seeking))
        }
        Ok(None) => Step::End(last(seeking.search, seeking.number)),
        Err(other) => Step::End(other),
    }
}

/// Where it is equal, or is not, the search ends or goes on with the next item.
pub(crate) fn equal_given(seeking: Seeking, answer: Result<Answer, Raised>) -> Step<IterKept>
    ensures goes { (w : World) → Resumes (IterKept.Equal seeking) answer w w result }
    ensures safe { (w : World) → AllHold w (of_seeking seeking) → AllHold w (of_ended answer) →
        AllHold w (of_step of_iter_kept result) }
{
    match truth_of(answer) {
        Ok(equal) => turned(seeking, equal),
        Err(other) => Step::End(other),
    }
}

// The truth value that was answered, or else another answer as it is.
fn truth_of(answer: Result<Answer, Raised>) -> Result<bool, Result<Answer, Raised>>
    ensures truth { IfOk result (λ b. answer ≡ Ok (Answer.Truth b)) }
    ensures same { IfErr result (λ other. other ≡ answer) }
    ensures other { IfErr result (λ _. IsNoTruth answer) }
{
    match answer {
        Ok(Answer::Truth(equal)) => Ok(equal),
        other => Err(other),
    }
}

// An item was equal, or was not.
fn turned(seeking: Seeking, equal: bool) -> Step<IterKept>
    ensures goes { (w : World) → Resumes (IterKept.Equal seeking) (Ok (Answer.Truth equal)) w w result }
    ensures safe { (w : World) → AllHold w (of_seeking seeking) → AllHold w (of_step of_iter_kept result) }
{
    match turn(seeking.search, seeking.number, equal) {
        Ok(number) => next_item(Seeking {
            search: seeking.search,
            iterator: seeking.iterator,
            needle: seeking.needle,
            number,
        }),
        Err(ended) => Step::End(ended),
    }
}

// How a search goes on at an item that is equal or is not: with a number, or it ends.
fn turn(search: Search, number: u64, equal: bool) -> Result<u64, Result<Answer, Raised>>
    ensures on { IfOk result (λ n. (m : ℕ) × (turn_of search number equal ≡ Ok m) × CountsAlike m n) }
    ensures ended { IfErr result (λ r. turn_of search number equal ≡ Err (ended_of r)) }
    ensures holds { IfErr result (λ r. (w : World) → AllHold w (of_ended r)) }
{
    match (search, equal) {
        (Search::Contains, true) => Err(Ok(Answer::Truth(true))),
        (Search::Contains, false) => Ok(number),
        (Search::Count, true) => Ok(one_more(number)),
        (Search::Count, false) => Ok(number),
        (Search::Find, true) => Err(counted(number)),
        (Search::Find, false) => Ok(one_more(number)),
    }
}

// One more, as far as 64 bits go.
fn one_more(number: u64) -> u64
    ensures { CountsAlike (number + 1) result }
{
    number.saturating_add(1)
}

// How a search ends at the last item.
fn last(search: Search, number: u64) -> Result<Answer, Raised>
    ensures ended { ended_of result ≡ last_of search number }
    ensures holds { (w : World) → AllHold w (of_ended result) }
{
    match search {
        Search::Contains => Ok(Answer::Truth(false)),
        Search::Count => counted(number),
        Search::Find => Err(Raised::new(Cause::NotFound)),
    }
}

// A number of items, where it is not too great.
fn counted(number: u64) -> Result<Answer, Raised>
    ensures ended { ended_of result ≡ counted number }
    ensures holds { (w : World) → AllHold w (of_ended result) }
{
    if number <= i64::MAX as u64 {
        Ok(Answer::Number(number as i64))
    } else {
        Err(Raised::new(Cause::IndexRange))
    }
}
