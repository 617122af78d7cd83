//! Whether an object is among the items of a tuple or a list.

ghost use Rattle.native_containers.specs.Below.{[], IfOk, slice_get, of_ended, of_step, Leaves, AllHold, AreNodes, Holds, IsNode};
ghost use Rattle.std.specs.Prelude.{◌≡◌, ◌∷◌};
ghost use Rattle.native_containers.specs.declared.native_items.ItemKept.TheVariants.{Searching};
ghost use Rattle.native_containers.specs.NativeItems.Items.{look_for};
ghost use Rattle.native_containers.specs.NativeItems.Rows.{Does, Enters, Resumes, next_asked, of_item_kept, searcher_of};

use crate::native_items::ItemKept;
use crate::native_items::get::{Sequence, kind_of};
use crate::receivers::own_and;
use class_world::World;
use class_world::args::copy_args;
use py_node::task::Args;
use py_node::{Answer, CompareTask, FuncArgs, OutOfMemory, PyObjectRef, Raised, Step, Task};
use row_kit::take_containers::items;

/// Whether an item is an object, or equal to it.
pub(crate) fn contains(
    world: &World,
    sequence: Sequence,
    call: FuncArgs<'_>,
) -> Result<Step<ItemKept>, OutOfMemory>
    requires { Holds world.now (AreNodes call.args.now) }
    ensures goes { IfOk result (λ step. Enters (searcher_of sequence) call.entry.args.now call.entry.kw.now world.now world.now step) }
    ensures safe { Leaves of_item_kept world.now world.now result }
{
    match own_and(world, kind_of(sequence), call) {
        Err(raised) => Ok(Step::End(Err(raised))),
        Ok((object, needle)) => first_asked(world, sequence, object, needle),
    }
}

// The first item is asked.
fn first_asked(
    world: &World,
    sequence: Sequence,
    object: PyObjectRef,
    needle: PyObjectRef,
) -> Result<Step<ItemKept>, OutOfMemory>
    requires object { Holds world.now (IsNode object) }
    requires needle { Holds world.now (IsNode needle) }
    ensures goes { IfOk result (λ step. Does (searcher_of sequence) (object ∷ needle ∷ [])
        (λ t u. look_for u object needle []) world.now world.now step) }
    ensures safe { Leaves of_item_kept world.now world.now result }
{
    let all = copy_args(world.alloc(), items(world, object))?;
    Ok(next_asked(world, needle, all, 0))
}

// The item at a place is asked. Where there is none, none is the object.
fn next_asked(world: &World, needle: PyObjectRef, items: Args, next: usize) -> Step<ItemKept>
    requires needle { Holds world.now (IsNode needle) }
    requires items { Holds world.now (AreNodes items.items) }
    ensures step { result ≡ next_asked needle items next (slice_get items.items next) }
    ensures safe { AllHold world.now (of_step of_item_kept result) }
{
    if next >= items.len() {
        return Step::End(Ok(Answer::Value(world.truth(false))));
    }
    let item = items[next];
    Step::Ask(
        Task::Compare(CompareTask::IdEq(item, needle)),
        ItemKept::Searching(needle, items, next + 1),
    )
}

/// The search goes on, unless an item is the object.
pub(crate) fn searched(
    world: &World,
    needle: PyObjectRef,
    items: Args,
    next: usize,
    answer: Result<Answer, Raised>,
) -> Step<ItemKept>
    requires needle { Holds world.now (IsNode needle) }
    requires items { Holds world.now (AreNodes items.items) }
    requires answer { AllHold world.now (of_ended answer) }
    ensures goes { Resumes (Searching needle items next) answer world.now world.now result }
    ensures safe { AllHold world.now (of_step of_item_kept result) }
{
    match answer {
        Ok(Answer::Truth(true)) => Step::End(Ok(Answer::Value(world.truth(true)))),
        Ok(Answer::Truth(false)) => next_asked(world, needle, items, next),
        other => Step::End(other),
    }
}
