//! A list gets the items of an iteration after its own.

ghost use Rattle.py_node.specs.Stops.{Ended};
ghost use Rattle.native_containers.specs.Below.{[], IfOk, InplaceAdd, OfList, of_ended, Leaves, ended_of, EndsAs, LeavesEnd, AllHold, AreNodes, Holding, Holds, IsNode, items_at};
ghost use Rattle.std.specs.Prelude.{◌≡◌, ◌∷◌, ◌++◌};
ghost use Rattle.py_node.specs.declared.built_in.BuiltIn.TheVariants.{List};
ghost use Rattle.native_containers.specs.NativeItems.Items.{extend, extend_rest, list_extended};
ghost use Rattle.native_containers.specs.NativeItems.Rows.{Does, Enters, items_stood, of_item_kept, of_stood};

use crate::native_items::ItemKept;
use crate::native_items::stood::stood;
use crate::receivers::own_and;
use class_world::World;
use class_world::limits::is_within_limit;
use py_node::protocol::ProtocolTask;
use py_node::task::Args;
use py_node::{
    Answer, Cause, FuncArgs, OutOfMemory, Payload, PyObjectRef, Raised, Step, Stop, Task,
};
use row_kit::proto_base::is_plain;
use row_kit::take_containers::{Kind, items};

/// A list gets the items of an iteration after its own, and is the answer.
pub(crate) fn extend_list(world: &World, call: FuncArgs<'_>) -> Result<Step<ItemKept>, OutOfMemory>
    requires { Holds world.now (AreNodes call.args.now) }
    ensures goes { IfOk result (λ step. Enters (OfList InplaceAdd) call.entry.args.now call.entry.kw.now world.now world.now step) }
    ensures safe { Leaves of_item_kept world.now world.now result }
{
    match own_and(world, Kind::List, call) {
        Err(raised) => Ok(Step::End(Err(raised))),
        Ok((list, others)) => items_asked(world, list, others),
    }
}

// The items are asked.
fn items_asked(
    world: &World,
    list: PyObjectRef,
    others: PyObjectRef,
) -> Result<Step<ItemKept>, OutOfMemory>
    requires list { Holds world.now (IsNode list) }
    requires holding { Holds world.now (Holding list List) }
    requires others { Holds world.now (IsNode others) }
    ensures goes { IfOk result (λ step. Does (OfList InplaceAdd) (list ∷ others ∷ [])
        (λ t u. extend u list others []) world.now world.now step) }
    ensures safe { Leaves of_item_kept world.now world.now result }
{
    let stood = stood(world, is_plain(world, others), list)?;
    let task = Task::Protocol(ProtocolTask::Collect(others));
    Ok(Step::Ask(task, ItemKept::Extending(list, stood)))
}

/// They come after those of the list.
pub(crate) fn list_extended(
    world: &mut World,
    list: PyObjectRef,
    stood: Option<Args>,
    answer: Result<Answer, Raised>,
) -> Result<Answer, Stop>
    requires list { Holds world.old (IsNode list) }
    requires holding { Holds world.old (Holding list List) }
    requires stood { AllHold world.old (of_stood stood) }
    requires answer { AllHold world.old (of_ended answer) }
    ensures ends { Ended result (EndsAs (λ t u.
        extend_rest u list (items_stood u stood list) (ended_of answer) []) world.old world.new) }
    ensures safe { LeavesEnd world.old world.new result }
{
    match answer {
        Ok(Answer::Objects(others)) => match stood {
            None => push_all(world, list, &others),
            Some(items) => put_all(world, list, items, &others),
        },
        other => Ok(other?),
    }
}

// A list with others after its items is the answer, unless they are too many.
fn push_all(world: &mut World, list: PyObjectRef, others: &[PyObjectRef]) -> Result<Answer, Stop>
    requires list { Holds world.old (IsNode list) }
    requires holding { Holds world.old (Holding list List) }
    requires others { Holds world.old (AreNodes others.now) }
    ensures ends { Ended result (EndsAs (λ t u. list_extended u list (items_at u list ++ others.now))
        world.old world.new) }
    ensures safe { LeavesEnd world.old world.new result }
{
    if !is_within_limit(items(world, list).len() + others.len()) {
        return Err(Stop::raise(Cause::TooLong));
    }
    world.push_items(list, others)?;
    Ok(Answer::Value(list))
}

// So is one that has these items from then on, with others after them.
fn put_all(
    world: &mut World,
    list: PyObjectRef,
    mut items: Args,
    others: &[PyObjectRef],
) -> Result<Answer, Stop>
    requires list { Holds world.old (IsNode list) }
    requires holding { Holds world.old (Holding list List) }
    requires items { Holds world.old (AreNodes items.items) }
    requires others { Holds world.old (AreNodes others.now) }
    ensures ends { Ended result (EndsAs (λ t u. list_extended u list (items.items ++ others.now))
        world.old world.new) }
    ensures safe { LeavesEnd world.old world.new result }
{
    items.extend_from_slice(others)?;
    if !is_within_limit(items.len()) {
        return Err(Stop::raise(Cause::TooLong));
    }
    world.set_payload(list, Payload::List(items));
    Ok(Answer::Value(list))
}
