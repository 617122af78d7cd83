//! How long tuples, lists and dicts can be.

ghost use Rattle.class_world.specs.Below.{length, nat_le, entries_in, has_place, most_items, datum_at};
ghost use Rattle.std.specs.Prelude.{◌≡◌};
ghost use Rattle.class_world.specs.Reading.{Reading, Reads, plain};
ghost use Rattle.class_world.specs.Sound.{IsName, IsNode, Holds};

use crate::world::World;
use py_node::{Payload, PyObjectRef, PyStrInterned};

/// No tuple, list or dict has more items.
pub const MOST_ITEMS: usize = 16_777_216;

/// Whether a tuple, a list or a dict can have so many items.
pub fn is_within_limit(count: usize) -> bool
    ensures { result ≡ nat_le count most_items }
{
    count <= MOST_ITEMS
}

/// Whether a dict has room for one more entry, or a name as a key.
pub fn has_place(world: &World, dict: PyObjectRef, name: PyStrInterned) -> bool
    requires dict { Holds world.now (IsNode dict) }
    requires name { Holds world.now (IsName name) }
    ensures { (t : Reading) → Reads t world.now → has_place (plain t world.now) dict (t.text name.0) ≡ result }
{
    entry_count(world, dict) < MOST_ITEMS || world.value_in(dict, name).is_some()
}

// How many entries a dict has.
fn entry_count(world: &World, dict: PyObjectRef) -> usize
    requires { Holds world.now (IsNode dict) }
    ensures { (t : Reading) → length (entries_in (datum_at (plain t world.now) dict)) ≡ result }
{
    match world.payload(dict) {
        Payload::Dict(dict) => dict.len(),
        _ => 0,
    }
}
