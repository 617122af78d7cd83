//! An item or a part of a list is set.

ghost use Rattle.py_node.specs.Stops.{Ended};
ghost use Rattle.native_containers.specs.Below.{[], IfOk, length, slice_set, SetItem, OfList, of_ended, Leaves, ended_of, EndsAs, LeavesEnd, AllHold, AreNodes, Grows, Holding, Holds, IsNode, items_at};
ghost use Rattle.std.specs.Prelude.{◌≡◌, ◌∷◌};
ghost use Rattle.py_node.specs.declared.built_in.BuiltIn.TheVariants.{List};
ghost use Rattle.native_containers.specs.Say.{list_changed};
ghost use Rattle.native_containers.specs.NativeItems.Items.{part_set, placed, set_item, set_rest};
ghost use Rattle.native_containers.specs.NativeItems.Places.{place_at, slice_at};
ghost use Rattle.native_containers.specs.NativeItems.Rows.{Does, Enters, items_stood, of_item_kept, of_stood};

use crate::made::{change_list, ends_none};
use crate::native_items::ItemKept;
use crate::native_items::places::{place_at, put_part, replace_part, slice_of};
use crate::native_items::stood::stood;
use crate::receivers::own_and_two;
use class_world::World;
use class_world::limits::is_within_limit;
use py_node::protocol::ProtocolTask;
use py_node::task::Args;
use py_node::{Answer, Cause, FuncArgs, OutOfMemory, PyObjectRef, Raised, Step, Stop, Task};
use row_kit::proto_base::is_plain;
use row_kit::take_containers::{Kind, items};

/// An item of a list is set, or a part of it to the items of an iteration.
pub(crate) fn set_item(world: &World, call: FuncArgs<'_>) -> Result<Step<ItemKept>, OutOfMemory>
    requires { Holds world.now (AreNodes call.args.now) }
    ensures goes { IfOk result (λ step. Enters (OfList SetItem) call.entry.args.now call.entry.kw.now world.now world.now step) }
    ensures safe { Leaves of_item_kept world.now world.now result }
{
    match own_and_two(world, Kind::List, call) {
        Err(raised) => Ok(Step::End(Err(raised))),
        Ok((list, key, value)) => set_asked(world, list, key, value),
    }
}

// The place of the item is asked, or the items of the part.
fn set_asked(
    world: &World,
    list: PyObjectRef,
    key: PyObjectRef,
    value: PyObjectRef,
) -> Result<Step<ItemKept>, OutOfMemory>
    requires list { Holds world.now (IsNode list) }
    requires holding { Holds world.now (Holding list List) }
    requires key { Holds world.now (IsNode key) }
    requires value { Holds world.now (IsNode value) }
    ensures goes { IfOk result (λ step. Does (OfList SetItem) (list ∷ key ∷ value ∷ [])
        (λ t u. set_item u list key value []) world.now world.now step) }
    ensures safe { Leaves of_item_kept world.now world.now result }
{
    match slice_of(world, key) {
        Some(_) => {
            let stood = stood(world, is_plain(world, value), list)?;
            let task = Task::Protocol(ProtocolTask::Collect(value));
            Ok(Step::Ask(task, ItemKept::Setting(list, key, value, stood)))
        }
        None => {
            let stood = stood(world, world.number(key).is_some(), list)?;
            let task = Task::Protocol(ProtocolTask::Index(key));
            Ok(Step::Ask(task, ItemKept::Setting(list, key, value, stood)))
        }
    }
}

/// The item is set at the place that was asked for, or the part to the items.
pub(crate) fn item_set(
    world: &mut World,
    list: PyObjectRef,
    key: PyObjectRef,
    value: PyObjectRef,
    stood: Option<Args>,
    answer: Result<Answer, Raised>,
) -> Result<Answer, Stop>
    requires list { Holds world.old (IsNode list) }
    requires holding { Holds world.old (Holding list List) }
    requires key { Holds world.old (IsNode key) }
    requires value { Holds world.old (IsNode value) }
    requires stood { AllHold world.old (of_stood stood) }
    requires answer { AllHold world.old (of_ended answer) }
    ensures ends { Ended result (EndsAs (λ t u.
        set_rest u list key value (items_stood u stood list) (ended_of answer) []) world.old world.new) }
    ensures safe { LeavesEnd world.old world.new result }
{
    match answer {
        Ok(Answer::Objects(values)) => put_values(world, list, key, stood, values),
        Ok(Answer::Value(index)) => Ok(put_value(world, list, index, stood, value)?),
        other => Ok(other?),
    }
}

// A value at the place to which an object leads.
fn put_value(
    world: &mut World,
    list: PyObjectRef,
    index: PyObjectRef,
    stood: Option<Args>,
    value: PyObjectRef,
) -> Result<Answer, Raised>
    requires list { Holds world.old (IsNode list) }
    requires holding { Holds world.old (Holding list List) }
    requires index { Holds world.old (IsNode index) }
    requires stood { AllHold world.old (of_stood stood) }
    requires value { Holds world.old (IsNode value) }
    ensures ends { EndsAs (λ t u. placed u (place_at u (length (items_stood u stood list)) index)
        (λ i. list_changed u list (slice_set (items_stood u stood list) i value))) world.old world.new result }
    ensures grows { Grows world.old world.new }
    ensures holds { AllHold world.new (of_ended result) }
{
    match stood {
        None => put_in_place(world, list, index, value),
        Some(items) => put_among(world, list, index, items, value),
    }
}

// It is put among the items that the list has.
fn put_in_place(
    world: &mut World,
    list: PyObjectRef,
    index: PyObjectRef,
    value: PyObjectRef,
) -> Result<Answer, Raised>
    requires list { Holds world.old (IsNode list) }
    requires holding { Holds world.old (Holding list List) }
    requires index { Holds world.old (IsNode index) }
    requires value { Holds world.old (IsNode value) }
    ensures ends { EndsAs (λ t u. placed u (place_at u (length (items_at u list)) index)
        (λ i. list_changed u list (slice_set (items_at u list) i value))) world.old world.new result }
    ensures grows { Grows world.old world.new }
    ensures holds { AllHold world.new (of_ended result) }
{
    let count = items(world, list).len();
    match place_at(world, count, index) {
        None => Err(Raised::new(Cause::IndexOut)),
        Some(place) => {
            if !is_within_limit(count) {
                return Err(Raised::new(Cause::TooLong));
            }
            world.set_item(list, place, value);
            ends_none(world)
        }
    }
}

// It is put among items that the list has from then on.
fn put_among(
    world: &mut World,
    list: PyObjectRef,
    index: PyObjectRef,
    mut items: Args,
    value: PyObjectRef,
) -> Result<Answer, Raised>
    requires list { Holds world.old (IsNode list) }
    requires holding { Holds world.old (Holding list List) }
    requires index { Holds world.old (IsNode index) }
    requires items { Holds world.old (AreNodes items.items) }
    requires value { Holds world.old (IsNode value) }
    ensures ends { EndsAs (λ t u. placed u (place_at u (length items.items) index)
        (λ i. list_changed u list (slice_set items.items i value))) world.old world.new result }
    ensures grows { Grows world.old world.new }
    ensures holds { AllHold world.new (of_ended result) }
{
    match place_at(world, items.len(), index) {
        None => Err(Raised::new(Cause::IndexOut)),
        Some(place) => {
            items[place] = value;
            change_list(world, list, items)
        }
    }
}

// Values in the place of those between the bounds of a slice.
fn put_values(
    world: &mut World,
    list: PyObjectRef,
    key: PyObjectRef,
    stood: Option<Args>,
    values: Args,
) -> Result<Answer, Stop>
    requires list { Holds world.old (IsNode list) }
    requires holding { Holds world.old (Holding list List) }
    requires key { Holds world.old (IsNode key) }
    requires stood { AllHold world.old (of_stood stood) }
    requires values { Holds world.old (AreNodes values.items) }
    ensures ends { Ended result (EndsAs (λ t u.
        part_set u (slice_at u key) list (items_stood u stood list) values.items) world.old world.new) }
    ensures safe { LeavesEnd world.old world.new result }
{
    match slice_of(world, key) {
        None => Err(Stop::raise(Cause::IndexOut)),
        Some(slice) => match stood {
            None => replace_part(world, list, slice, values),
            Some(items) => {
                let all = put_part(world, slice, &items, &values)?;
                Ok(change_list(world, list, all)?)
            }
        },
    }
}
