//! The names of an object's attributes.
#![tactic(auto, unfolding(crate::specs::Say::object_job_say, py_node::specs::BuiltIns::place_of))]

ghost use Rattle.py_node.specs.Stops.{Ended};
ghost use Rattle.proto_object.specs.Below.{[], IfOk, dict_of, Leaves, Reading, Reads, bindings, plain, EndsAs, LeavesEnd, AllHold, AreNodes, Holds, IsNode, of_binding, of_each, keyed};
ghost use Rattle.std.specs.Prelude.{◌≡◌, ◌++◌};
ghost use Rattle.py_node.specs.declared.protocol.ObjectTask.TheVariants as object;
ghost use Rattle.proto_object.specs.Texts.{has_name, names_made, other_keys, own_keys};
ghost use Rattle.proto_object.specs.Rows.{Begins, of_object_kept};

use crate::ObjectKept;
use class_world::World;
use py_node::task::Args;
use py_node::{
    Answer, BuiltIn, OutOfMemory, Payload, PyAttributes, PyObjectRef, Step, Stop, caught,
};
use row_kit::class_attributes::key_all;
use row_kit::entries::keys_of;
use row_kit::give::new_sized;
use row_kit::take_containers::entries;
use std::alloc::Global;

/// The names of the attributes of an object's class, as new texts, and then the keys of its dict that are none of
/// them, as a new list.
pub(crate) fn begin_dir(world: &mut World, o: PyObjectRef) -> Result<Step<ObjectKept>, OutOfMemory>
    requires { Holds world.old (IsNode o) }
    ensures goes { IfOk result (λ step. Begins (object.Dir o) world.old world.new step) }
    ensures safe { Leaves of_object_kept world.old world.new result }
{
    let attrs = world.get_attributes(world.class_of(o))?;
    let keys = own_keys(world, o)?;
    let others = other_keys(world, &attrs, &keys)?;
    let ended = caught(new_names(world, &attrs, &others))?;
    Ok(Step::End(ended))
}

// The keys of an object's dict, if it has one.
fn own_keys(world: &World, o: PyObjectRef) -> Result<Args, OutOfMemory>
    requires { Holds world.now (IsNode o) }
    ensures keys { IfOk result (λ v. (t : Reading) →
        own_keys (plain t world.now) (dict_of (plain t world.now) o) ≡ v.items) }
    ensures holds { IfOk result (λ v. Holds world.now (AreNodes v.items)) }
{
    match world.dict_of(o) {
        None => Ok(Vec::new(world.alloc())),
        Some(dict) => {
            let keys = keys_of(world.alloc(), entries(world, dict))?;
            Ok(keys)
        }
    }
}

// The keys that are none of the names.
fn other_keys(
    world: &World,
    attrs: &PyAttributes,
    keys: &[PyObjectRef],
) -> Result<Args, OutOfMemory>
    requires attrs { AllHold world.now (of_each of_binding attrs.now) }
    requires keys { Holds world.now (AreNodes keys.now) }
    ensures others { IfOk result (λ v. (t : Reading) → Reads t world.now →
        other_keys (plain t world.now) (bindings t attrs.now) keys.now ≡ v.items) }
    ensures holds { IfOk result (λ v. Holds world.now (AreNodes v.items)) }
{
    let mut others = Vec::new(world.alloc());
    for key in keys {
        if !has_name(world, attrs, *key) {
            others.push(*key)?;
        }
    }
    Ok(others)
}

// Whether a key is a text that is one of the names.
fn has_name(world: &World, attrs: &PyAttributes, key: PyObjectRef) -> bool
    requires attrs { AllHold world.now (of_each of_binding attrs.now) }
    requires key { Holds world.now (IsNode key) }
    ensures { (t : Reading) → Reads t world.now →
        has_name (plain t world.now) (bindings t attrs.now) key ≡ result }
{
    match world.payload(key) {
        Payload::Text(text) => match world.names().interned_str(text.as_str()) {
            None => false,
            Some(name) => attrs.contains(name),
        },
        _ => false,
    }
}

// Ends with a new list: a new text for each name, and then other keys.
fn new_names(
    world: &mut World,
    attrs: &PyAttributes,
    others: &[PyObjectRef],
) -> Result<Answer, Stop>
    requires attrs { AllHold world.old (of_each of_binding attrs.now) }
    requires others { Holds world.old (AreNodes others.now) }
    ensures ends { Ended result (EndsAs (λ t u. names_made others.now (keyed u [] (bindings t attrs.now)))
        world.old world.new) }
    ensures safe { LeavesEnd world.old world.new result }
{
    let entries = key_all(world, attrs)?;
    let keys = keys_of(world.alloc(), &entries)?;
    let names = joined(world.alloc(), &keys, others)?;
    new_sized(world, BuiltIn::List, Payload::List(names))
}

// Some objects, and others after them.
fn joined(alloc: Global, first: &[PyObjectRef], second: &[PyObjectRef]) -> Result<Args, OutOfMemory>
    ensures { IfOk result (λ v. v.items ≡ first.now ++ second.now) }
{
    let mut all = Vec::new(alloc);
    all.extend_from_slice(first)?;
    all.extend_from_slice(second)?;
    Ok(all)
}
