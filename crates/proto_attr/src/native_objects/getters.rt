//! What is read of `object` and `type` through getters.

ghost use Rattle.py_node.specs.Stops.{Ended};
ghost use Rattle.proto_attr.specs.Below.{option_map, PlainWorld, Ends, ref, base, of_ended, Reading, bindings, ended_of, plain, Held, EndsAs, LeavesEnd, AllHold, AreNodes, IsClass, IsNode, Holds, of_node_ref, of_option};
ghost use Rattle.std.specs.Prelude.{◌≡◌};
ghost use Rattle.proto_attr.specs.NativeObjects.Details.{or_none};
ghost use Rattle.proto_attr.specs.NativeObjects.Getters.{class_read, dict_or_fault, getter_say};

use crate::native_objects::attributes::{annotations, class_dict};
use class_world::takes::one;
use class_world::{Fixed, World};
use py_node::{
    Answer, BuiltIn, Cause, FuncArgs, Known, Payload, Property, PyObjectRef, PyTypeRef, Raised,
    Stop,
};
use row_kit::class_names::{given, limited_text};
use row_kit::class_nodes::class_nodes;
use row_kit::give::{new_int, new_sized};
use row_kit::take_classes::lone_class;

/// What is read of any object, or of a class.
pub fn getter_native(
    world: &mut World,
    property: Property,
    call: FuncArgs<'_>,
) -> Result<Answer, Stop>
    requires { Holds world.old (AreNodes call.args.now) }
    ensures ends { Ended result (EndsAs (λ t u. getter_say u property call.entry.args.now (bindings t call.entry.kw.now))
        world.old world.new) }
    ensures safe { LeavesEnd world.old world.new result }
{
    match property {
        Property::Class => Ok(class_of_any(world, call)?),
        Property::InstanceDict => dict_of_any(world, call),
        property => {
            let class = lone_class(world, call)?;
            class_read(world, property, class)
        }
    }
}

// The class of an object.
fn class_of_any(world: &World, call: FuncArgs<'_>) -> Result<Answer, Raised>
    requires { Holds world.now (AreNodes call.args.now) }
    ensures ends { EndsAs (λ t u. getter_say u Property.Class call.entry.args.now (bindings t call.entry.kw.now)) world.now world.now result }
    ensures holds { AllHold world.now (of_ended result) }
{
    let object = one(call)?;
    Ok(Answer::Value(world.type_object(object)))
}

// The dict of an object, which for a class is that of its attributes.
fn dict_of_any(world: &mut World, call: FuncArgs<'_>) -> Result<Answer, Stop>
    requires { Holds world.old (AreNodes call.args.now) }
    ensures ends { Ended result (EndsAs (λ t u. getter_say u Property.InstanceDict call.entry.args.now (bindings t call.entry.kw.now))
        world.old world.new) }
    ensures safe { LeavesEnd world.old world.new result }
{
    let object = one(call)?;
    match world.class_number(object) {
        Some(class) => class_dict(world, class),
        None => Ok(dict_or_fault(world.dict_of(object))?),
    }
}

// A dict, if there is one.
fn dict_or_fault(dict: Option<PyObjectRef>) -> Result<Answer, Raised>
    ensures ends { (u : PlainWorld) → dict_or_fault u dict ≡ Ends u (ended_of result) }
    ensures holds { (w : Held) → AllHold w (of_option of_node_ref dict) → AllHold w (of_ended result) }
{
    match dict {
        None => Err(Raised::new(Cause::NoDict)),
        Some(dict) => Ok(Answer::Value(dict)),
    }
}

// What is read of a class.
fn class_read(world: &mut World, property: Property, class: PyTypeRef) -> Result<Answer, Stop>
    requires { Holds world.old (IsClass class.0) }
    ensures ends { Ended result (EndsAs (λ t u. class_read u property class.0) world.old world.new) }
    ensures safe { LeavesEnd world.old world.new result }
{
    match property {
        Property::Class => Ok(Answer::Value(world.type_object(world.class_node(class)))),
        Property::Name => {
            let text = String::from_str(world.alloc(), world.class_name(class))?;
            limited_text(world, text)
        }
        Property::Qualname => qualname(world, class),
        Property::Module => module(world, class),
        Property::Bases => bases(world, class),
        Property::Mro => mro(world, class),
        Property::Base => Ok(Answer::Value(base_of(world, class))),
        Property::Flags => flags(world, class),
        Property::Annotations => annotations(world, class),
        Property::Dict | Property::InstanceDict => class_dict(world, class),
        Property::TextSignature => Ok(Answer::Value(world.fixed(Fixed::None))),
    }
}

// The name of a class within its module: what it is itself given, or else its name.
fn qualname(world: &mut World, class: PyTypeRef) -> Result<Answer, Stop>
    requires { Holds world.old (IsClass class.0) }
    ensures ends { Ended result (EndsAs (λ t u. class_read u Property.Qualname class.0) world.old world.new) }
    ensures safe { LeavesEnd world.old world.new result }
{
    match given(world, class, Known::Qualname) {
        Some(value) => Ok(Answer::Value(value)),
        None => {
            let text = String::from_str(world.alloc(), world.class_name(class))?;
            limited_text(world, text)
        }
    }
}

// The module of a class: what it is itself given, or else that of the built-in classes.
fn module(world: &mut World, class: PyTypeRef) -> Result<Answer, Stop>
    requires { Holds world.old (IsClass class.0) }
    ensures ends { Ended result (EndsAs (λ t u. class_read u Property.Module class.0) world.old world.new) }
    ensures safe { LeavesEnd world.old world.new result }
{
    match given(world, class, Known::Module) {
        Some(value) => Ok(Answer::Value(value)),
        None => {
            let text = String::from_str(world.alloc(), "builtins")?;
            limited_text(world, text)
        }
    }
}

// The bases of a class, as a new tuple.
fn bases(world: &mut World, class: PyTypeRef) -> Result<Answer, Stop>
    requires { Holds world.old (IsClass class.0) }
    ensures ends { Ended result (EndsAs (λ t u. class_read u Property.Bases class.0) world.old world.new) }
    ensures safe { LeavesEnd world.old world.new result }
{
    let table = world.classes();
    table.sound();
    let nodes = class_nodes(world, table.bases(class))?;
    new_sized(world, BuiltIn::Tuple, Payload::Tuple(nodes))
}

// The linearisation of a class, as a new tuple.
fn mro(world: &mut World, class: PyTypeRef) -> Result<Answer, Stop>
    requires { Holds world.old (IsClass class.0) }
    ensures ends { Ended result (EndsAs (λ t u. class_read u Property.Mro class.0) world.old world.new) }
    ensures safe { LeavesEnd world.old world.new result }
{
    let nodes = class_nodes(world, world.classes().mro(class))?;
    new_sized(world, BuiltIn::Tuple, Payload::Tuple(nodes))
}

// The best base of a class, or else None.
fn base_of(world: &World, class: PyTypeRef) -> PyObjectRef
    requires { Holds world.now (IsClass class.0) }
    ensures base { (t : Reading) → or_none (option_map ref (base (plain t world.now).classes class.0)) ≡ result }
    ensures node { Holds world.now (IsNode result) }
{
    match world.classes().base(class) {
        None => world.fixed(Fixed::None),
        Some(base) => world.class_node(base),
    }
}

// The flags of a class, as a new number.
fn flags(world: &mut World, class: PyTypeRef) -> Result<Answer, Stop>
    requires { Holds world.old (IsClass class.0) }
    ensures ends { Ended result (EndsAs (λ t u. class_read u Property.Flags class.0) world.old world.new) }
    ensures safe { LeavesEnd world.old world.new result }
{
    let flags = world.class_flags(class).0;
    new_int(world, Ok(flags as i128))
}
