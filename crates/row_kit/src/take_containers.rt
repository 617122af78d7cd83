//! Tuples, lists, dicts and iterators: whether an object is one, and what it holds.

ghost use Rattle.row_kit.specs.Below.{[], IsTrue, Some, datum_at, Dict, of_entries, Reading, datum, plain, AllHold, AreNodes, Holding, Holds, IsNode, home_of};
ghost use Rattle.std.specs.Prelude.{◌≡◌};
ghost use Rattle.row_kit.specs.TakeContainers.{entries_at, home_of_kind, is_of, items_at};

use class_world::World;
use py_node::{Payload, PyObjectRef};

/// A kind of objects whose natives are here.
#[derive(Clone, Copy)]
pub enum Kind {
    Tuple,
    List,
    Dict,
    Iterator,
}

/// Whether an object is of a kind.
pub fn is_of(world: &World, kind: Kind, object: PyObjectRef) -> bool
    requires { Holds world.now (IsNode object) }
    ensures is { (t : Reading) → is_of kind (datum_at (plain t world.now) object) ≡ result }
    ensures holding { IsTrue result → Holds world.now (Holding object (home_of_kind kind)) }
{
    holds(world.payload(object), kind)
}

// Whether such is what objects of a kind hold.
fn holds(payload: &Payload, kind: Kind) -> bool
    ensures is { (t : Reading) → is_of kind (Some (datum t payload.now)) ≡ result }
    ensures home { IsTrue result → home_of payload.now ≡ home_of_kind kind }
{
    match kind {
        Kind::Tuple => matches!(payload, Payload::Tuple(_)),
        Kind::List => matches!(payload, Payload::List(_)),
        Kind::Dict => matches!(payload, Payload::Dict(_)),
        Kind::Iterator => matches!(payload, Payload::Iterator(_)),
    }
}

/// The items of a tuple or a list.
pub fn items(world: &World, object: PyObjectRef) -> &[PyObjectRef]
    requires { Holds world.now (IsNode object) }
    ensures same { (t : Reading) → items_at (plain t world.now) object ≡ result.now }
    ensures holds { Holds world.now (AreNodes result.now) }
{
    match world.payload(object) {
        Payload::Tuple(items) => items,
        Payload::List(items) => items,
        _ => &[],
    }
}

/// The entries of a dict.
pub fn entries(world: &World, object: PyObjectRef) -> &[(PyObjectRef, PyObjectRef)]
    requires { Holds world.now (IsNode object) }
    ensures same { (t : Reading) → entries_at (plain t world.now) object ≡ result.now }
    ensures holds { AllHold world.now (of_entries result.now) }
{
    match world.payload(object) {
        Payload::Dict(dict) => dict.entries(),
        _ => &[],
    }
}
