//! The items that stood in an object at the start.

ghost use Rattle.native_containers.specs.Below.{IfOk, Reading, plain, AllHold, AreNodes, Holds, IsNode};
ghost use Rattle.std.specs.Prelude.{◌≡◌};
ghost use Rattle.native_containers.specs.NativeItems.Items.{stood};
ghost use Rattle.native_containers.specs.NativeItems.Rows.{items_stood, of_stood, stood_told};

use class_world::World;
use class_world::args::copy_args;
use py_node::task::Args;
use py_node::{OutOfMemory, PyObjectRef};
use row_kit::take_containers::items;

/// The items of an object as they stand now, unless nothing of a script runs before they are read again.
pub(crate) fn stood(
    world: &World,
    unchanged: bool,
    object: PyObjectRef,
) -> Result<Option<Args>, OutOfMemory>
    requires { Holds world.now (IsNode object) }
    ensures told { IfOk result (λ s. (t : Reading) → stood (plain t world.now) unchanged object ≡ stood_told s) }
    ensures holds { IfOk result (λ s. AllHold world.now (of_stood s)) }
{
    if unchanged {
        Ok(None)
    } else {
        let copy = copy_args(world.alloc(), items(world, object))?;
        Ok(Some(copy))
    }
}

/// The items that stood there, or else those that the object has now.
pub(crate) fn standing<'a>(
    world: &'a World,
    stood: &'a Option<Args>,
    object: PyObjectRef,
) -> &'a [PyObjectRef]
    requires object { Holds world.now (IsNode object) }
    requires stood { AllHold world.now (of_stood stood.now) }
    ensures same { (t : Reading) → items_stood (plain t world.now) stood.now object ≡ result.now }
    ensures holds { Holds world.now (AreNodes result.now) }
{
    match stood {
        None => items(world, object),
        Some(items) => items.as_slice(),
    }
}
