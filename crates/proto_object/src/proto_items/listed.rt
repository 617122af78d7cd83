//! The list that a mapping's method gave, or a new one of its items.
#![tactic(auto, unfolding(crate::specs::ProtoItems::Say::items_job_say, py_node::specs::BuiltIns::place_of))]

ghost use Rattle.proto_object.specs.Below.{IfErr, IfOk, Ok, of_ended, of_step, Leaves, AllHold, AreNodes, Holds, IsNode};
ghost use Rattle.std.specs.Prelude.{◌≡◌};
ghost use Rattle.py_node.specs.declared.protocol.ProtocolTask.TheVariants as protocol;
ghost use Rattle.proto_object.specs.ProtoIter.Rows.{IsNoItem};
ghost use Rattle.proto_object.specs.ProtoItems.Rows.{Resumes, item_answer, of_items_kept};

use crate::proto_items::ItemsKept;
use class_world::World;
use class_world::limits::is_within_limit;
use py_node::protocol::ProtocolTask;
use py_node::task::Args;
use py_node::{Answer, BuiltIn, Cause, OutOfMemory, PyObjectRef, Raised, Step, Task, caught};
use row_kit::give_containers::new_list;
use row_kit::proto_base::is_exactly;

/// A list that the method gave is the answer. Else its items are asked.
pub(crate) fn listed(world: &World, given: PyObjectRef) -> Step<ItemsKept>
    requires { Holds world.now (IsNode given) }
    ensures goes { Resumes ItemsKept.Invoked (Ok (Answer.Value given)) world.now world.now result }
    ensures safe { AllHold world.now (of_step of_items_kept result) }
{
    if is_exactly(world, given, BuiltIn::List) {
        return Step::End(Ok(Answer::Value(given)));
    }
    let task = Task::Protocol(ProtocolTask::GetIter(given));
    Step::Ask(task, ItemsKept::Iterating)
}

/// An iteration began, and its first item is asked. Where none began, the method gave no iterable.
pub(crate) fn iterated(world: &World, answer: Result<Answer, Raised>) -> Step<ItemsKept>
    requires { AllHold world.now (of_ended answer) }
    ensures goes { Resumes ItemsKept.Iterating answer world.now world.now result }
    ensures safe { AllHold world.now (of_step of_items_kept result) }
{
    match answer {
        Ok(Answer::Value(iterator)) => ask_first(world, iterator),
        Ok(other) => Step::End(Ok(other)),
        Err(_) => Step::raise(Cause::NonIterableMethod),
    }
}

// The first item of an iteration is asked.
fn ask_first(world: &World, iterator: PyObjectRef) -> Step<ItemsKept>
    requires { Holds world.now (IsNode iterator) }
    ensures goes { Resumes ItemsKept.Iterating (Ok (Answer.Value iterator)) world.now world.now result }
    ensures safe { AllHold world.now (of_step of_items_kept result) }
{
    ask_next(iterator, Vec::new(world.alloc()))
}

/// One item more was given, or the iteration is over.
pub(crate) fn gather(
    world: &mut World,
    iterator: PyObjectRef,
    items: Args,
    answer: Result<Answer, Raised>,
) -> Result<Step<ItemsKept>, OutOfMemory>
    requires iterator { Holds world.old (IsNode iterator) }
    requires items { Holds world.old (AreNodes items.items) }
    requires answer { AllHold world.old (of_ended answer) }
    ensures goes { IfOk result (λ step.
        Resumes (ItemsKept.Gathering iterator items) answer world.old world.new step) }
    ensures safe { Leaves of_items_kept world.old world.new result }
{
    match item_of(answer) {
        Ok(Some(item)) => one_more(world, iterator, items, item),
        Ok(None) => {
            let ended = caught(new_list(world, items))?;
            Ok(Step::End(ended))
        }
        Err(other) => Ok(Step::End(other)),
    }
}

// The item that an iteration gave, or that it gave no more, or else the answer as it is.
fn item_of(answer: Result<Answer, Raised>) -> Result<Option<PyObjectRef>, Result<Answer, Raised>>
    ensures item { IfOk result (λ item. answer ≡ item_answer item) }
    ensures same { IfErr result (λ other. other ≡ answer) }
    ensures other { IfErr result (λ _. IsNoItem answer) }
{
    match answer {
        Ok(Answer::Value(item)) => Ok(Some(item)),
        Ok(Answer::Exhausted) => Ok(None),
        other => Err(other),
    }
}

// One item more, unless there are too many then, and the next one is asked.
fn one_more(
    world: &World,
    iterator: PyObjectRef,
    items: Args,
    item: PyObjectRef,
) -> Result<Step<ItemsKept>, OutOfMemory>
    requires iterator { Holds world.now (IsNode iterator) }
    requires items { Holds world.now (AreNodes items.items) }
    requires item { Holds world.now (IsNode item) }
    ensures goes { IfOk result (λ step.
        Resumes (ItemsKept.Gathering iterator items) (Ok (Answer.Value item)) world.now world.now step) }
    ensures safe { Leaves of_items_kept world.now world.now result }
{
    let mut items = items;
    items.push(item)?;
    if !is_within_limit(items.len()) {
        return Ok(Step::raise(Cause::TooLong));
    }
    Ok(ask_next(iterator, items))
}

// The next item is asked.
fn ask_next(iterator: PyObjectRef, items: Args) -> Step<ItemsKept>
    ensures { result ≡ Step.Ask (Task.Protocol (protocol.Next iterator)) (ItemsKept.Gathering iterator items) }
{
    Step::Ask(
        Task::Protocol(ProtocolTask::Next(iterator)),
        ItemsKept::Gathering(iterator, items),
    )
}
