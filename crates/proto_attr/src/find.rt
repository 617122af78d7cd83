//! What an attribute's search finds.
#![tactic(auto)]

ghost use Rattle.std.specs.Prelude.{◌≡◌};
ghost use Rattle.proto_attr.specs.Below.{Reading, Reads, plain, AllHold, Claim, Holds, IsNode, of_option, of_node_ref};
ghost use Rattle.proto_attr.specs.Say.{gives, is_data, of_value, find};
ghost use Rattle.proto_attr.specs.Rows.{of_found};

use class_world::World;
use py_node::{PyObjectRef, SlotId};

/// What an attribute's search finds.
#[derive(Clone, Copy, PartialEq, Eq, Debug)]
pub enum Found {
    /// A descriptor, which is asked for the value.
    Descriptor(PyObjectRef),
    /// The value itself.
    Value(PyObjectRef),
    /// Nothing.
    Missing,
}

// Whether a value is asked for what an attribute gives.
pub(crate) fn gives(world: &World, value: PyObjectRef) -> bool
    requires { Holds world.now (IsNode value) }
    ensures { (t : Reading) → Reads t world.now → gives (plain t world.now) value ≡ result }
{
    world.slot(value, SlotId::DescrGet).is_some()
}

// Whether it is asked before an object's own dict.
pub(crate) fn is_data(world: &World, value: PyObjectRef) -> bool
    requires { Holds world.now (IsNode value) }
    ensures { (t : Reading) → Reads t world.now → is_data (plain t world.now) value ≡ result }
{
    gives(world, value) && world.slot(value, SlotId::DescrSet).is_some()
}

// A value of a class: a descriptor, or the value itself.
pub(crate) fn of_value(world: &World, value: PyObjectRef) -> Found
    requires { Holds world.now (IsNode value) }
    ensures found { (t : Reading) → Reads t world.now → of_value (plain t world.now) value ≡ result }
    ensures holds { AllHold world.now (of_found result) }
{
    if gives(world, value) {
        Found::Descriptor(value)
    } else {
        Found::Value(value)
    }
}

// Of what the class has and what the dict has: a data descriptor, or else what the dict has, or else what the
// class has.
pub(crate) fn find(world: &World, class: Option<PyObjectRef>, own: Option<PyObjectRef>) -> Found
    requires class { AllHold world.now (of_option of_node_ref class) }
    requires own { AllHold world.now (of_option of_node_ref own) }
    ensures found { (t : Reading) → Reads t world.now → find (plain t world.now) class own ≡ result }
    ensures holds { AllHold world.now (of_found result) }
{
    match (class, own) {
        (None, None) => Found::Missing,
        (None, Some(value)) => Found::Value(value),
        (Some(value), None) => of_value(world, value),
        (Some(value), Some(own)) => {
            if is_data(world, value) {
                Found::Descriptor(value)
            } else {
                Found::Value(own)
            }
        }
    }
}
