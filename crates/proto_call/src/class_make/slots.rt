//! The names that `__slots__` gives.

ghost use Rattle.proto_call.specs.Below.{map, option_map, IfOk, IfSome, place_of, class_at, datum_at, Reading, Reads, plain, spelled, IsNode, AreNodes, IsName, AreNames, Holds, Grows};
ghost use Rattle.std.specs.Prelude.{◌≡◌};
ghost use Rattle.proto_call.specs.ClassMake.Say.{is_class, names_in, slots_in, text_of, texts_of};

use crate::class_make::namespace::text_at;
use class_world::World;
use class_world::args::{alone, copy_args};
use py_node::task::Args;
use py_node::{BuiltIn, OutOfMemory, Payload, PyObjectRef, PyStrInterned};

/// The names that a value of `__slots__` gives, where it is exactly a text, a tuple or a list, of texts.
pub(crate) fn names_in(
    world: &mut World,
    value: PyObjectRef,
) -> Result<Option<Vec<PyStrInterned>>, OutOfMemory>
    requires { Holds world.old (IsNode value) }
    ensures names { IfOk result (λ o. (t : Reading) → Reads t world.new →
        names_in (plain t world.old) value ≡ option_map (λ ns. map (spelled t) ns.items) o) }
    ensures same { (t : Reading) → plain t world.new ≡ plain t world.old }
    ensures reads { (t : Reading) → Reads t world.new → Reads t world.old }
    ensures grows { Grows world.old world.new }
    ensures holds { IfOk result (λ o. IfSome o (λ ns. Holds world.new (AreNames ns.items))) }
{
    let parts = slots_in(world, value)?;
    match parts {
        None => Ok(None),
        Some(parts) => {
            let names = texts_of(world, &parts)?;
            Ok(names)
        }
    }
}

// The objects that a value of `__slots__` names: a text, or the items of a tuple or a list.
#[tactic(auto, unfolding(py_node::specs::BuiltIns::place_of))]
fn slots_in(world: &World, value: PyObjectRef) -> Result<Option<Args>, OutOfMemory>
    requires { Holds world.now (IsNode value) }
    ensures parts { IfOk result (λ o. (t : Reading) →
        slots_in value (class_at (plain t world.now) value) (datum_at (plain t world.now) value) ≡
        option_map (λ rs. rs.items) o) }
    ensures nodes { IfOk result (λ o. IfSome o (λ rs. Holds world.now (AreNodes rs.items))) }
{
    let alloc = world.alloc();
    match world.payload(value) {
        Payload::Text(_) => {
            if !is_exactly(world, value, BuiltIn::Str) {
                return Ok(None);
            }
            let only = alone(alloc, value)?;
            Ok(Some(only))
        }
        Payload::Tuple(parts) => {
            if !is_exactly(world, value, BuiltIn::Tuple) {
                return Ok(None);
            }
            let copy = copy_args(alloc, parts)?;
            Ok(Some(copy))
        }
        Payload::List(parts) => {
            if !is_exactly(world, value, BuiltIn::List) {
                return Ok(None);
            }
            let copy = copy_args(alloc, parts)?;
            Ok(Some(copy))
        }
        _ => Ok(None),
    }
}

// Whether an object is of a built-in class itself.
fn is_exactly(world: &World, node: PyObjectRef, class: BuiltIn) -> bool
    requires { Holds world.now (IsNode node) }
    ensures { (t : Reading) → is_class (class_at (plain t world.now) node) (place_of class) ≡ result }
{
    let own = world.class_of(node);
    let other = world.built_in(class);
    own.0 == other.0
}

// The names that some objects are, where all are texts.
fn texts_of(
    world: &mut World,
    parts: &[PyObjectRef],
) -> Result<Option<Vec<PyStrInterned>>, OutOfMemory>
    requires { Holds world.old (AreNodes parts.now) }
    ensures names { IfOk result (λ o. (t : Reading) → Reads t world.new →
        texts_of (plain t world.old) parts.now ≡ option_map (λ ns. map (spelled t) ns.items) o) }
    ensures same { (t : Reading) → plain t world.new ≡ plain t world.old }
    ensures reads { (t : Reading) → Reads t world.new → Reads t world.old }
    ensures grows { Grows world.old world.new }
    ensures holds { IfOk result (λ o. IfSome o (λ ns. Holds world.new (AreNames ns.items))) }
{
    let alloc = world.alloc();
    let mut names = Vec::new(alloc);
    for part in parts {
        let next = name_at(world, *part)?;
        match next {
            None => return Ok(None),
            Some(name) => names.push(name)?,
        }
    }
    Ok(Some(names))
}

// The name that an object is, if it is a text.
fn name_at(world: &mut World, node: PyObjectRef) -> Result<Option<PyStrInterned>, OutOfMemory>
    requires { Holds world.old (IsNode node) }
    ensures name { IfOk result (λ o. (t : Reading) → Reads t world.new →
        text_of (datum_at (plain t world.old) node) ≡ option_map (spelled t) o) }
    ensures same { (t : Reading) → plain t world.new ≡ plain t world.old }
    ensures reads { (t : Reading) → Reads t world.new → Reads t world.old }
    ensures grows { Grows world.old world.new }
    ensures holds { IfOk result (λ o. IfSome o (λ x. Holds world.new (IsName x))) }
{
    let text = text_at(world, node)?;
    match text {
        None => Ok(None),
        Some(text) => {
            let name = world.intern(text.as_str())?;
            Ok(Some(name))
        }
    }
}
