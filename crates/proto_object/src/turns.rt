//! Items that are asked one after another, until one counts.

ghost use Rattle.proto_object.specs.Below.{drop, slice_get, of_ended, of_step, AllHold, AreNodes, Holds, IsNode};
ghost use Rattle.std.specs.Prelude.{◌≡◌, ◌+◌};
ghost use Rattle.proto_object.specs.Rows.{Resumes, asked_of, of_object_kept, of_turn, turn_step};

use crate::ObjectKept;
use crate::asked::says;
use class_world::World;
use py_node::protocol::ObjectTask;
use py_node::task::Args;
use py_node::{Answer, PyObjectRef, Raised, Step, Task};

/// What is asked of each item.
#[derive(Clone, Copy)]
pub enum Turn {
    /// Whether this object is an instance of the item.
    InstanceOf(PyObjectRef),
    /// Whether this class is a subclass of the item.
    SubclassOf(PyObjectRef),
    /// Whether the item derives from this object, by its bases.
    Derives(PyObjectRef),
}

// What is asked of an item.
fn asked_of(turn: Turn, item: PyObjectRef) -> ObjectTask
    ensures { result ≡ asked_of turn item }
{
    match turn {
        Turn::InstanceOf(o) => ObjectTask::IsInstance(o, item),
        Turn::SubclassOf(d) => ObjectTask::IsSubclass(d, item),
        Turn::Derives(c) => ObjectTask::AbsSub(item, c),
    }
}

/// Asks the item at a place, or says false where there is none.
pub(crate) fn take_turn(world: &World, turn: Turn, items: Args, next: usize) -> Step<ObjectKept>
    requires items { Holds world.now (AreNodes items.items) }
    requires turn { AllHold world.now (of_turn turn) }
    ensures step { result ≡ turn_step turn (drop next items.items) (ObjectKept.Each turn items (next + 1)) }
    ensures safe { AllHold world.now (of_step of_object_kept result) }
{
    let _classes = world.classes();
    match item_at(&items, next) {
        None => says(false),
        Some(item) => {
            let task = Task::Object(asked_of(turn, item));
            Step::Ask(task, ObjectKept::Each(turn, items, next + 1))
        }
    }
}

// The item at a place, if there is one.
fn item_at(items: &[PyObjectRef], place: usize) -> Option<PyObjectRef>
    ensures { slice_get items.now place ≡ result }
{
    if place < items.len() {
        Some(items[place])
    } else {
        None
    }
}

/// An item was asked: where it counts, that is the answer, and else the next one is asked.
pub(crate) fn next_turn(
    world: &World,
    turn: Turn,
    items: Args,
    next: usize,
    answer: Result<Answer, Raised>,
) -> Step<ObjectKept>
    requires items { Holds world.now (AreNodes items.items) }
    requires turn { AllHold world.now (of_turn turn) }
    requires answer { AllHold world.now (of_ended answer) }
    ensures goes { Resumes (ObjectKept.Each turn items next) answer world.now world.now result }
    ensures safe { AllHold world.now (of_step of_object_kept result) }
{
    match answer {
        Ok(Answer::Truth(true)) => says(true),
        Ok(Answer::Truth(false)) => take_turn(world, turn, items, next),
        other => Step::End(other),
    }
}
