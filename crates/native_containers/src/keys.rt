//! Room for keys in dicts.

ghost use Rattle.native_containers.specs.Below.{length, nat_le, PyObjectRef as Object, with_entry, most_items, Reading, plain, Holds, IsNode, entries_at};
ghost use Rattle.std.specs.Prelude.{◌≡◌};

use class_world::World;
use class_world::limits::{MOST_ITEMS, is_within_limit};
use py_node::PyObjectRef;
use row_kit::take_containers::entries;

/// Whether a dict with a value under a key is not too long.
pub(crate) fn has_room(world: &World, dict: PyObjectRef, key: PyObjectRef) -> bool
    requires dict { Holds world.now (IsNode dict) }
    requires key { Holds world.now (IsNode key) }
    ensures { (t : Reading) (v : Object) → nat_le (length
        (with_entry (plain t world.now) (entries_at (plain t world.now) dict) (key, v))) most_items ≡ result }
{
    let count = entries(world, dict).len();
    match world.value_under(dict, key) {
        None => count < MOST_ITEMS,
        Some(_) => is_within_limit(count),
    }
}
