//! How a part of a sequence is read, set and taken out.
#![tactic(auto, unfolding(crate::specs::ProtoItems::Say::items_job_say, py_node::specs::BuiltIns::place_of))]

ghost use Rattle.proto_object.specs.Below.{IfOk, PyObjectRef as Object, PlainWorld, Said, Leaves, Reading, Reads, plain, Grows, Holds, IsNode};
ghost use Rattle.std.specs.Prelude.{◌≡◌};
ghost use Rattle.py_node.specs.declared.protocol.ProtocolTask.TheVariants as protocol;
ghost use Rattle.proto_object.specs.ProtoItems.Slices.{with_slice};
ghost use Rattle.proto_object.specs.ProtoItems.Rows.{Begins, of_items_kept};

use crate::proto_items::ItemsKept;
use crate::proto_items::items::deleted;
use class_world::World;
use py_node::payload::PySlice;
use py_node::{Boxed, BuiltIn, Cause, Known, OutOfMemory, Payload, PyObjectRef, SlotId, Step};
use row_kit::proto_base::entered;

/// The part of a sequence from a number to another one is the item of a slice of both.
pub(crate) fn begin_get_slice(
    world: &mut World,
    o: PyObjectRef,
    start: i64,
    stop: i64,
) -> Result<Step<ItemsKept>, OutOfMemory>
    requires { Holds world.old (IsNode o) }
    ensures goes { IfOk result (λ step. Begins (protocol.GetSlice o start stop) world.old world.new step) }
    ensures safe { Leaves of_items_kept world.old world.new result }
{
    match world.slot(o, SlotId::MapSubscript) {
        None => Ok(Step::raise(Cause::Unsliceable)),
        Some(entry) => {
            let slice = new_slice(world, start, stop)?;
            let task = entered(world, entry, Known::GetItem, o, &[slice])?;
            Ok(Step::Ask(task, ItemsKept::Pass))
        }
    }
}

/// The part is set to something.
pub(crate) fn begin_set_slice(
    world: &mut World,
    o: PyObjectRef,
    start: i64,
    stop: i64,
    value: PyObjectRef,
) -> Result<Step<ItemsKept>, OutOfMemory>
    requires object { Holds world.old (IsNode o) }
    requires value { Holds world.old (IsNode value) }
    ensures goes { IfOk result (λ step. Begins (protocol.SetSlice o start stop value) world.old world.new step) }
    ensures safe { Leaves of_items_kept world.old world.new result }
{
    match world.slot(o, SlotId::MapAssSubscript) {
        None => Ok(Step::raise(Cause::Unsliceable)),
        Some(entry) => {
            let slice = new_slice(world, start, stop)?;
            let task = entered(world, entry, Known::SetItem, o, &[slice, value])?;
            Ok(Step::Ask(task, ItemsKept::Ending))
        }
    }
}

/// The part is taken out.
pub(crate) fn begin_delete_slice(
    world: &mut World,
    o: PyObjectRef,
    start: i64,
    stop: i64,
) -> Result<Step<ItemsKept>, OutOfMemory>
    requires { Holds world.old (IsNode o) }
    ensures goes { IfOk result (λ step. Begins (protocol.DelSlice o start stop) world.old world.new step) }
    ensures safe { Leaves of_items_kept world.old world.new result }
{
    match world.slot(o, SlotId::MapAssSubscript) {
        None => Ok(Step::raise(Cause::Unsliceable)),
        Some(entry) => {
            let slice = new_slice(world, start, stop)?;
            let task = entered(world, deleted(entry), Known::DelItem, o, &[slice])?;
            Ok(Step::Ask(task, ItemsKept::Ending))
        }
    }
}

// A new number for each bound, and then a new slice of both.
fn new_slice(world: &mut World, start: i64, stop: i64) -> Result<PyObjectRef, OutOfMemory>
    ensures made { IfOk result (λ s. (t : Reading) (go : PlainWorld → Object → Said) →
        with_slice (plain t world.old) start stop go ≡ go (plain t world.new) s) }
    ensures reads { (t : Reading) → Reads t world.new → Reads t world.old }
    ensures grows { Grows world.old world.new }
    ensures node { IfOk result (λ s. Holds world.new (IsNode s)) }
{
    let numbers = world.built_in(BuiltIn::Int);
    let slices = world.built_in(BuiltIn::Slice);
    let first = world.make_node(numbers, Payload::Number(start as i128))?;
    let last = world.make_node(numbers, Payload::Number(stop as i128))?;
    let bounds = PySlice {
        start: Some(first),
        stop: Some(last),
        step: None,
    };
    let bounds = Boxed::new(world.alloc(), bounds)?;
    let slice = world.make_node(slices, Payload::Slice(bounds))?;
    Ok(slice)
}
