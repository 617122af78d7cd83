//! Dicts with the entries of others.

ghost use Rattle.native_containers.specs.Below.{fold, IfOk, with_entry, of_keyed, Reading, Reads, plain, AllHold, Grows, Holds, IsNode, entries_at};
ghost use Rattle.std.specs.Prelude.{◌≡◌};

use class_world::World;
use py_node::{OutOfMemory, Payload, PyDict, PyObjectRef};
use row_kit::entries::copy_entries;
use row_kit::take_containers::entries;

/// A dict with the entries of another one, one after another.
pub(crate) fn with_entries(
    world: &mut World,
    dict: PyObjectRef,
    other: PyObjectRef,
) -> Result<PyDict, OutOfMemory>
    requires dict { Holds world.old (IsNode dict) }
    requires other { Holds world.old (IsNode other) }
    ensures entries { IfOk result (λ d. (t : Reading) → d.items ≡ fold (with_entry (plain t world.old))
        (entries_at (plain t world.old) dict) (entries_at (plain t world.old) other)) }
    ensures holds { IfOk result (λ d. AllHold world.new (of_keyed d)) }
    ensures same { (t : Reading) → plain t world.new ≡ plain t world.old }
    ensures reads { (t : Reading) → Reads t world.new → Reads t world.old }
    ensures grows { Grows world.old world.new }
{
    let more = copy_entries(world.alloc(), entries(world, other))?;
    let mut all = copy_dict(world, dict)?;
    for entry in &more {
        all = world.with_entry(all, entry.0, entry.1)?;
    }
    Ok(all)
}

// The same keys with the same values.
fn copy_dict(world: &World, dict: PyObjectRef) -> Result<PyDict, OutOfMemory>
    requires { Holds world.now (IsNode dict) }
    ensures entries { IfOk result (λ d. (t : Reading) → entries_at (plain t world.now) dict ≡ d.items) }
    ensures holds { IfOk result (λ d. AllHold world.now (of_keyed d)) }
{
    let alloc = world.alloc();
    match world.payload(dict) {
        Payload::Dict(dict) => dict.try_clone(alloc),
        _ => Ok(PyDict::new(alloc)),
    }
}
