//! The parts that a class is made from: a name, a tuple of bases and a namespace.

ghost use Rattle.proto_call.specs.Below.{map, option_map, string_bytes, IfOk, IfSome, datum_at, Reading, Reads, bindings, plain, IsNode, AreNodes, Holds, AllHold, Grows, of_binding, of_each};
ghost use Rattle.std.specs.Prelude.{◌≡◌};
ghost use Rattle.proto_call.specs.ClassMake.Say.{text_of, tuple_of, dict_of, named, namespace};

use class_world::World;
use class_world::args::copy_args;
use py_node::task::Args;
use py_node::{OutOfMemory, Payload, PyAttributes, PyObjectRef};
use std::alloc::Global;

/// The entries of a dict: keys with their values.
pub(crate) type Entries = Vec<(PyObjectRef, PyObjectRef)>;

/// The text that an object holds, if it holds one.
pub(crate) fn text_at(world: &World, node: PyObjectRef) -> Result<Option<String>, OutOfMemory>
    requires { Holds world.now (IsNode node) }
    ensures { IfOk result (λ o. (t : Reading) → text_of (datum_at (plain t world.now) node) ≡
        option_map (λ s. string_bytes s) o) }
{
    let alloc = world.alloc();
    match world.payload(node) {
        Payload::Text(text) => {
            let copy = String::from_str(alloc, text.as_str())?;
            Ok(Some(copy))
        }
        _ => Ok(None),
    }
}

/// The objects of a tuple, if an object is one.
pub(crate) fn tuple_at(world: &World, node: PyObjectRef) -> Result<Option<Args>, OutOfMemory>
    requires { Holds world.now (IsNode node) }
    ensures parts { IfOk result (λ o. (t : Reading) → tuple_of (datum_at (plain t world.now) node) ≡
        option_map (λ rs. rs.items) o) }
    ensures nodes { IfOk result (λ o. IfSome o (λ rs. Holds world.now (AreNodes rs.items))) }
{
    let alloc = world.alloc();
    match world.payload(node) {
        Payload::Tuple(parts) => {
            let copy = copy_args(alloc, parts)?;
            Ok(Some(copy))
        }
        _ => Ok(None),
    }
}

/// The entries of a dict, if an object is one.
pub(crate) fn dict_at(world: &World, node: PyObjectRef) -> Result<Option<Entries>, OutOfMemory>
    requires { Holds world.now (IsNode node) }
    ensures parts { IfOk result (λ o. (t : Reading) → dict_of (datum_at (plain t world.now) node) ≡
        option_map (λ es. es.items) o) }
    ensures keys { IfOk result (λ o. IfSome o (λ es. Holds world.now (AreNodes (map (λ e. e.0) es.items)))) }
    ensures values { IfOk result (λ o. IfSome o (λ es. Holds world.now (AreNodes (map (λ e. e.1) es.items)))) }
{
    let alloc = world.alloc();
    match world.payload(node) {
        Payload::Dict(dict) => {
            let copy = copy_entries(alloc, dict.entries())?;
            Ok(Some(copy))
        }
        _ => Ok(None),
    }
}

// The same entries again.
fn copy_entries(
    alloc: Global,
    entries: &[(PyObjectRef, PyObjectRef)],
) -> Result<Entries, OutOfMemory>
    ensures { IfOk result (λ v. v.items ≡ entries.now) }
{
    let mut copy = Vec::new(alloc);
    copy.extend_from_slice(entries)?;
    Ok(copy)
}

/// The attributes that the entries of a dict are, where all keys are texts.
pub(crate) fn namespace(
    world: &mut World,
    entries: &[(PyObjectRef, PyObjectRef)],
) -> Result<Option<PyAttributes>, OutOfMemory>
    requires keys { Holds world.old (AreNodes (map (λ e. e.0) entries.now)) }
    requires values { Holds world.old (AreNodes (map (λ e. e.1) entries.now)) }
    ensures named { IfOk result (λ o. (t : Reading) → Reads t world.new → namespace (plain t world.old) entries.now ≡
        option_map (λ a. bindings t a) o) }
    ensures same { (t : Reading) → plain t world.new ≡ plain t world.old }
    ensures reads { (t : Reading) → Reads t world.new → Reads t world.old }
    ensures grows { Grows world.old world.new }
    ensures holds { IfOk result (λ o. IfSome o (λ a. AllHold world.new (of_each of_binding a))) }
{
    let alloc = world.alloc();
    let mut attrs = PyAttributes::new(alloc);
    for (key, value) in entries {
        let next = with_key(world, attrs, *key, *value)?;
        match next {
            None => return Ok(None),
            Some(more) => attrs = more,
        }
    }
    Ok(Some(attrs))
}

// The attributes with one more, where its key is a text.
fn with_key(
    world: &mut World,
    attrs: PyAttributes,
    key: PyObjectRef,
    value: PyObjectRef,
) -> Result<Option<PyAttributes>, OutOfMemory>
    requires attrs { AllHold world.old (of_each of_binding attrs) }
    requires key { Holds world.old (IsNode key) }
    requires value { Holds world.old (IsNode value) }
    ensures named { IfOk result (λ o. (t : Reading) → Reads t world.new →
        named (bindings t attrs) value (text_of (datum_at (plain t world.old) key)) ≡
        option_map (λ a. bindings t a) o) }
    ensures same { (t : Reading) → plain t world.new ≡ plain t world.old }
    ensures reads { (t : Reading) → Reads t world.new → Reads t world.old }
    ensures grows { Grows world.old world.new }
    ensures holds { IfOk result (λ o. IfSome o (λ a. AllHold world.new (of_each of_binding a))) }
{
    let text = text_at(world, key)?;
    match text {
        None => Ok(None),
        Some(text) => {
            let name = world.intern(text.as_str())?;
            let mut attrs = attrs;
            attrs.insert(name, value)?;
            Ok(Some(attrs))
        }
    }
}
