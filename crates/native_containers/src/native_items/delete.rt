//! An item or a part of a list is taken out.

ghost use Rattle.py_node.specs.Stops.{Ended};
ghost use Rattle.native_containers.specs.Below.{[], suc, take, drop, IfOk, length, DelItem, OfList, of_ended, Leaves, ended_of, EndsAs, LeavesEnd, AllHold, AreNodes, Grows, Holding, Holds, IsNode, items_at};
ghost use Rattle.std.specs.Prelude.{◌≡◌, ◌∷◌, ◌++◌};
ghost use Rattle.py_node.specs.declared.built_in.BuiltIn.TheVariants.{List};
ghost use Rattle.native_containers.specs.Say.{list_changed};
ghost use Rattle.native_containers.specs.NativeItems.Items.{del_item, del_rest, placed};
ghost use Rattle.native_containers.specs.NativeItems.Places.{place_at};
ghost use Rattle.native_containers.specs.NativeItems.Rows.{Does, Enters, items_stood, of_item_kept, of_stood};

use crate::made::{change_list, ends_none};
use crate::native_items::ItemKept;
use crate::native_items::places::{place_at, replace_part, slice_of};
use crate::native_items::stood::stood;
use crate::receivers::own_and;
use class_world::World;
use class_world::limits::is_within_limit;
use py_node::protocol::ProtocolTask;
use py_node::task::Args;
use py_node::{
    Answer, Cause, FuncArgs, OutOfMemory, PyObjectRef, Raised, Step, Stop, Task, caught,
};
use row_kit::take_containers::{Kind, items};

/// An item of a list is taken out, or a part of it.
pub(crate) fn delete_item(
    world: &mut World,
    call: FuncArgs<'_>,
) -> Result<Step<ItemKept>, OutOfMemory>
    requires { Holds world.old (AreNodes call.args.now) }
    ensures goes { IfOk result (λ step. Enters (OfList DelItem) call.entry.args.now call.entry.kw.now world.old world.new step) }
    ensures safe { Leaves of_item_kept world.old world.new result }
{
    match own_and(world, Kind::List, call) {
        Err(raised) => Ok(Step::End(Err(raised))),
        Ok((list, key)) => delete_asked(world, list, key),
    }
}

// The part is taken out, or the place of the item is asked.
fn delete_asked(
    world: &mut World,
    list: PyObjectRef,
    key: PyObjectRef,
) -> Result<Step<ItemKept>, OutOfMemory>
    requires list { Holds world.old (IsNode list) }
    requires holding { Holds world.old (Holding list List) }
    requires key { Holds world.old (IsNode key) }
    ensures goes { IfOk result (λ step. Does (OfList DelItem) (list ∷ key ∷ [])
        (λ t u. del_item u list key []) world.old world.new step) }
    ensures safe { Leaves of_item_kept world.old world.new result }
{
    match slice_of(world, key) {
        Some(slice) => {
            let none = Vec::new(world.alloc());
            let ended = caught(replace_part(world, list, slice, none))?;
            Ok(Step::End(ended))
        }
        None => {
            let stood = stood(world, world.number(key).is_some(), list)?;
            let task = Task::Protocol(ProtocolTask::Index(key));
            Ok(Step::Ask(task, ItemKept::Deleting(list, stood)))
        }
    }
}

/// The item at the place that was asked for is taken out.
pub(crate) fn item_deleted(
    world: &mut World,
    list: PyObjectRef,
    stood: Option<Args>,
    answer: Result<Answer, Raised>,
) -> Result<Answer, Stop>
    requires list { Holds world.old (IsNode list) }
    requires holding { Holds world.old (Holding list List) }
    requires stood { AllHold world.old (of_stood stood) }
    requires answer { AllHold world.old (of_ended answer) }
    ensures ends { Ended result (EndsAs (λ t u.
        del_rest u list (items_stood u stood list) (ended_of answer) []) world.old world.new) }
    ensures safe { LeavesEnd world.old world.new result }
{
    match answer {
        Ok(Answer::Value(index)) => Ok(take_out(world, list, index, stood)?),
        other => Ok(other?),
    }
}

// Without the item at the place to which an object leads.
fn take_out(
    world: &mut World,
    list: PyObjectRef,
    index: PyObjectRef,
    stood: Option<Args>,
) -> Result<Answer, Raised>
    requires list { Holds world.old (IsNode list) }
    requires holding { Holds world.old (Holding list List) }
    requires index { Holds world.old (IsNode index) }
    requires stood { AllHold world.old (of_stood stood) }
    ensures ends { EndsAs (λ t u. placed u (place_at u (length (items_stood u stood list)) index)
        (λ i. list_changed u list
        (take i (items_stood u stood list) ++ drop (suc i) (items_stood u stood list)))) world.old world.new result }
    ensures grows { Grows world.old world.new }
    ensures holds { AllHold world.new (of_ended result) }
{
    match stood {
        None => take_in_place(world, list, index),
        Some(items) => take_among(world, list, index, items),
    }
}

// It is taken out of the items that the list has.
fn take_in_place(world: &mut World, list: PyObjectRef, index: PyObjectRef) -> Result<Answer, Raised>
    requires list { Holds world.old (IsNode list) }
    requires holding { Holds world.old (Holding list List) }
    requires index { Holds world.old (IsNode index) }
    ensures ends { EndsAs (λ t u. placed u (place_at u (length (items_at u list)) index)
        (λ i. list_changed u list (take i (items_at u list) ++ drop (suc i) (items_at u list)))) world.old world.new result }
    ensures grows { Grows world.old world.new }
    ensures holds { AllHold world.new (of_ended result) }
{
    let count = items(world, list).len();
    match place_at(world, count, index) {
        None => Err(Raised::new(Cause::IndexOut)),
        Some(place) => {
            if !is_within_limit(count - 1) {
                return Err(Raised::new(Cause::TooLong));
            }
            world.take_item(list, place);
            ends_none(world)
        }
    }
}

// It is taken out of items that the list has from then on.
fn take_among(
    world: &mut World,
    list: PyObjectRef,
    index: PyObjectRef,
    mut items: Args,
) -> Result<Answer, Raised>
    requires list { Holds world.old (IsNode list) }
    requires holding { Holds world.old (Holding list List) }
    requires index { Holds world.old (IsNode index) }
    requires items { Holds world.old (AreNodes items.items) }
    ensures ends { EndsAs (λ t u. placed u (place_at u (length items.items) index)
        (λ i. list_changed u list (take i items.items ++ drop (suc i) items.items))) world.old world.new result }
    ensures grows { Grows world.old world.new }
    ensures holds { AllHold world.new (of_ended result) }
{
    match place_at(world, items.len(), index) {
        None => Err(Raised::new(Cause::IndexOut)),
        Some(place) => {
            let _ = items.remove(place);
            change_list(world, list, items)
        }
    }
}
