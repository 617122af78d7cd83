//! What is listed of the attributes of classes.

ghost use Rattle.py_node.specs.Stops.{Ended};
ghost use Rattle.proto_attr.specs.Below.{[], Some, IfOk, OnOk, Annotations, the_dict, ADict, with_node, next_node, with_own_attr, Reading, Reads, plain, spelled, EndsAs, LeavesEnd, Grows, IsClass, IsName, IsNode, Holds};
ghost use Rattle.std.specs.Prelude.{◌≡◌};
ghost use Rattle.proto_attr.specs.NativeObjects.Attributes.{annotations, class_dict};

use class_world::World;
use py_node::{
    Answer, BuiltIn, Cause, Known, OutOfMemory, Payload, PyDict, PyObjectRef, PyStrInterned,
    PyTypeRef, Stop,
};
use row_kit::class_attributes::key_all;
use row_kit::give::new_sized;

/// The own attributes of a class, as a new dict.
pub(crate) fn class_dict(world: &mut World, class: PyTypeRef) -> Result<Answer, Stop>
    requires { Holds world.old (IsClass class.0) }
    ensures ends { Ended result (EndsAs (λ t u. class_dict u class.0) world.old world.new) }
    ensures safe { LeavesEnd world.old world.new result }
{
    let attrs = world.attributes(class).try_clone(world.alloc())?;
    let entries = key_all(world, &attrs)?;
    let dict = world.entries_from(&entries)?;
    new_sized(world, BuiltIn::Dict, Payload::Dict(dict))
}

/// The annotations of a class that a script made: its own, or else a new dict, which becomes an own attribute.
pub(crate) fn annotations(world: &mut World, class: PyTypeRef) -> Result<Answer, Stop>
    requires { Holds world.old (IsClass class.0) }
    ensures ends { Ended result (EndsAs (λ t u. annotations u class.0) world.old world.new) }
    ensures safe { LeavesEnd world.old world.new result }
{
    if !world.class_is_heap(class) {
        return Err(Stop::raise(Cause::NoAttribute));
    }
    let name = world.known(Known::Annotations);
    match world.own_attr(class, name) {
        Some(value) => Ok(Answer::Value(value)),
        None => {
            let dict = new_annotations(world, class, name)?;
            Ok(Answer::Value(dict))
        }
    }
}

// A new dict, which becomes an own attribute. A class that a script made is not refused, so only memory can be missing.
#[tactic(auto, unfolding(py_node::specs::BuiltIns::place_of))]
fn new_annotations(
    world: &mut World,
    class: PyTypeRef,
    name: PyStrInterned,
) -> Result<PyObjectRef, OutOfMemory>
    requires class { Holds world.old (IsClass class.0) }
    requires name { Holds world.old (IsName name) }
    ensures made { OnOk result ((t : Reading) → plain t world.new ≡ with_own_attr
        (with_node (plain t world.old) the_dict (ADict [])) class.0 (spelled t name)
        (next_node (plain t world.old) the_dict)) }
    ensures number { IfOk result (λ r. (t : Reading) → r ≡ next_node (plain t world.old) the_dict) }
    ensures reads { (t : Reading) → Reads t world.new → Reads t world.old }
    ensures grows { Grows world.old world.new }
    ensures node { IfOk result (λ r. Holds world.new (IsNode r)) }
{
    let empty = PyDict::new(world.alloc());
    let dicts = world.built_in(BuiltIn::Dict);
    let dict = world.make_node(dicts, Payload::Dict(empty))?;
    match world.set_attr(class, name, dict) {
        Ok(()) => Ok(dict),
        Err(_) => Err(OutOfMemory),
    }
}
