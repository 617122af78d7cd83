//! The dicts that nodes are, by the places of their keys.

ghost use Rattle.class_world.specs.Below.{None, length, position, OnOk, OnErr, Dict, dict_pushed, dict_put, dict_removed, is_same_key};
ghost use Rattle.std.specs.Prelude.{◌≡◌, ◌<◌};
ghost use Rattle.class_world.specs.Sound.{home_of};
ghost use Rattle.class_world.specs.Keyed.{dict_in, HasOther};

use py_node::{Node, OutOfMemory, Payload, PyDictKey, PyObjectRef};
use std::alloc::Global;

// Another value for the key at a place.
pub(crate) fn put_value(node: &mut Node, place: usize, value: PyObjectRef)
    requires { place < length (dict_in node.old.payload).items }
    ensures { HasOther node.old node.new (dict_put (dict_in node.old.payload) place value) }
{
    if let Payload::Dict(dict) = &mut node.payload {
        dict.put(place, value);
    }
}

// A key that is put last, with its object and its value.
pub(crate) fn push_entry(
    node: &mut Node,
    alloc: Global,
    stored: PyDictKey,
    key: PyObjectRef,
    value: PyObjectRef,
) -> Result<(), OutOfMemory>
    requires home { home_of node.old.payload ≡ Dict }
    requires absent { position (is_same_key stored) (dict_in node.old.payload).keys ≡ None }
    ensures ok { OnOk result (HasOther node.old node.new (dict_pushed (dict_in node.old.payload) stored key value)) }
    ensures err { OnErr result (HasOther node.old node.new (dict_in node.old.payload)) }
{
    match &mut node.payload {
        Payload::Dict(dict) => dict.push(alloc, stored, key, value),
        _ => Ok(()),
    }
}

// The key at a place is taken out.
pub(crate) fn take_entry(node: &mut Node, place: usize)
    requires { place < length (dict_in node.old.payload).items }
    ensures { HasOther node.old node.new (dict_removed (dict_in node.old.payload) place) }
{
    if let Payload::Dict(dict) = &mut node.payload {
        dict.remove(place);
    }
}
