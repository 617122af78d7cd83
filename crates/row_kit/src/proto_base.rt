//! What rows of protocols share: what a slot's entry asks, and tests of an object's class.
#![tactic(auto, using(crate::proofs::ProtoBase::Nodes::all_nodes, crate::proofs::ProtoBase::Nodes::first_node))]

ghost use Rattle.row_kit.specs.Below.{IfOk, place_of, of_task, Reading, Reads, plain, task_of, AllHold, Holds, IsNode, of_each, of_node_ref};
ghost use Rattle.std.specs.Prelude.{◌≡◌};
ghost use Rattle.row_kit.specs.ProtoBase.Entered.{entered, is_exactly, is_plain};

use class_world::World;
use class_world::args::{copy_args, with_first};
use class_world::natives::native_task;
use py_node::{AttributeTask, BuiltIn, Known, OutOfMemory, PyObjectRef, SlotEntry, Task};

/// What a slot's entry asks of an object and of what follows it: its native, or the special method of a name.
pub fn entered(
    world: &World,
    entry: SlotEntry,
    name: Known,
    object: PyObjectRef,
    args: &[PyObjectRef],
) -> Result<Task, OutOfMemory>
    requires object { Holds world.now (IsNode object) }
    requires args { AllHold world.now (of_each of_node_ref args.now) }
    ensures task { IfOk result (λ task. (t : Reading) → Reads t world.now →
        task_of t task ≡ entered entry name object args.now) }
    ensures holds { IfOk result (λ task. AllHold world.now (of_task task)) }
{
    let alloc = world.alloc();
    match entry {
        SlotEntry::Native(native) => {
            let all = with_first(alloc, object, args)?;
            Ok(native_task(native, all, Vec::new(alloc)))
        }
        _ => {
            let args = copy_args(alloc, args)?;
            let kw = Vec::new(alloc);
            Ok(Task::Attribute(AttributeTask::Special(object, world.known(name), args, kw)))
        }
    }
}

/// Whether an object's class is just this built-in one, and not one that derives from it.
pub fn is_exactly(world: &World, object: PyObjectRef, class: BuiltIn) -> bool
    requires { Holds world.now (IsNode object) }
    ensures { (t : Reading) → is_exactly (plain t world.now) object (place_of class) ≡ result }
{
    world.class_of(object).0 == class.class().0
}

/// Whether an object is a tuple or a list and of no class that derives from theirs: its items are read at once.
#[tactic(auto, unfolding(py_node::specs::BuiltIns::place_of))]
pub fn is_plain(world: &World, object: PyObjectRef) -> bool
    requires { Holds world.now (IsNode object) }
    ensures { (t : Reading) → is_plain (plain t world.now) object ≡ result }
{
    is_exactly(world, object, BuiltIn::Tuple) || is_exactly(world, object, BuiltIn::List)
}
