//! An item or a part of a tuple or a list.

ghost use Rattle.py_node.specs.Stops.{Ended};
ghost use Rattle.native_containers.specs.Below.{[], IfOk, of_ended, Leaves, ended_of, EndsAs, LeavesEnd, AllHold, AreNodes, Holds, IsNode};
ghost use Rattle.std.specs.Prelude.{◌≡◌, ◌∷◌};
ghost use Rattle.native_containers.specs.NativeItems.Items.{get_item, item_got};
ghost use Rattle.native_containers.specs.NativeItems.Rows.{Does, Enters, getter_of, items_stood, kind_of, made_as, of_item_kept, of_stood};

use crate::native_items::ItemKept;
use crate::native_items::places::{part, place_at, slice_of};
use crate::native_items::stood::{standing, stood};
use crate::receivers::own_and;
use class_world::World;
use py_node::protocol::ProtocolTask;
use py_node::task::Args;
use py_node::{
    Answer, Cause, FuncArgs, OutOfMemory, PyObjectRef, Raised, Step, Stop, Task, caught,
};
use row_kit::give_containers::{new_list, new_tuple};
use row_kit::take_containers::{Kind, items};

/// What has its items by their places.
#[derive(Clone, Copy)]
pub enum Sequence {
    Tuple,
    List,
}

/// The kind of such objects.
pub(crate) fn kind_of(sequence: Sequence) -> Kind
    ensures { result ≡ kind_of sequence }
{
    match sequence {
        Sequence::Tuple => Kind::Tuple,
        Sequence::List => Kind::List,
    }
}

/// An item, or a part as a new object.
pub(crate) fn get_item(
    world: &mut World,
    sequence: Sequence,
    call: FuncArgs<'_>,
) -> Result<Step<ItemKept>, OutOfMemory>
    requires { Holds world.old (AreNodes call.args.now) }
    ensures goes { IfOk result (λ step. Enters (getter_of sequence) call.entry.args.now call.entry.kw.now world.old world.new step) }
    ensures safe { Leaves of_item_kept world.old world.new result }
{
    match own_and(world, kind_of(sequence), call) {
        Err(raised) => Ok(Step::End(Err(raised))),
        Ok((object, key)) => item_asked(world, sequence, object, key),
    }
}

// A part, or an item whose place is asked.
fn item_asked(
    world: &mut World,
    sequence: Sequence,
    object: PyObjectRef,
    key: PyObjectRef,
) -> Result<Step<ItemKept>, OutOfMemory>
    requires object { Holds world.old (IsNode object) }
    requires key { Holds world.old (IsNode key) }
    ensures goes { IfOk result (λ step. Does (getter_of sequence) (object ∷ key ∷ [])
        (λ t u. get_item u (made_as sequence u) object key []) world.old world.new step) }
    ensures safe { Leaves of_item_kept world.old world.new result }
{
    match slice_of(world, key) {
        Some(slice) => {
            let part = part(world, slice, items(world, object))?;
            let ended = caught(made(world, sequence, part))?;
            Ok(Step::End(ended))
        }
        None => {
            let stood = stood(world, world.number(key).is_some(), object)?;
            let task = Task::Protocol(ProtocolTask::Index(key));
            Ok(Step::Ask(task, ItemKept::Getting(object, stood)))
        }
    }
}

// Ends with a new object of these items.
fn made(world: &mut World, sequence: Sequence, items: Args) -> Result<Answer, Stop>
    requires { Holds world.old (AreNodes items.items) }
    ensures ends { Ended result (EndsAs (λ t u. made_as sequence u items.items) world.old world.new) }
    ensures safe { LeavesEnd world.old world.new result }
{
    match sequence {
        Sequence::Tuple => new_tuple(world, items),
        Sequence::List => new_list(world, items),
    }
}

/// The item at a place that was asked for.
pub(crate) fn item_got(
    world: &World,
    object: PyObjectRef,
    stood: &Option<Args>,
    answer: Result<Answer, Raised>,
) -> Result<Answer, Raised>
    requires object { Holds world.now (IsNode object) }
    requires stood { AllHold world.now (of_stood stood.now) }
    requires answer { AllHold world.now (of_ended answer) }
    ensures ends { EndsAs (λ t u. item_got u (items_stood u stood.now object) (ended_of answer) [])
        world.now world.now result }
    ensures holds { AllHold world.now (of_ended result) }
{
    match answer {
        Ok(Answer::Value(index)) => {
            let items = standing(world, stood, object);
            match place_at(world, items.len(), index) {
                None => Err(Raised::new(Cause::IndexOut)),
                Some(place) => Ok(Answer::Value(items[place])),
            }
        }
        other => other,
    }
}
