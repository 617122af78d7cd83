//! What is set of `object` and `type` through setters.

ghost use Rattle.py_node.specs.Stops.{Ended};
ghost use Rattle.proto_attr.specs.Below.{true, is_some, IfSome, Dict, dict_of, class_number, PlainWorld, Ends, datum_at, of_ended, Reading, bindings, ended_of, plain, EndsAs, LeavesEnd, AllHold, AreNodes, Grows, Holding, IsClass, IsNode, Holds};
ghost use Rattle.std.specs.Prelude.{◌≡◌};
ghost use Rattle.proto_attr.specs.NativeObjects.Setters.{class_written, is_dict, redicted, reclassed, set_class, set_class_dict, set_dict, setter_say};

use crate::native_objects::class_setters::{set_annotations, set_module, set_name, set_qualname};
use crate::native_objects::rebase::set_bases;
use crate::native_objects::receivers::{class_and_given, one_or_two};
use class_world::{Fixed, World};
use py_node::{Answer, Cause, FuncArgs, Payload, Property, PyObjectRef, PyTypeRef, Raised, Stop};

/// What is set of any object, or of a class.
pub fn setter_native(
    world: &mut World,
    property: Property,
    call: FuncArgs<'_>,
) -> Result<Answer, Stop>
    requires { Holds world.old (AreNodes call.args.now) }
    ensures ends { Ended result (EndsAs (λ t u. setter_say u property call.entry.args.now (bindings t call.entry.kw.now))
        world.old world.new) }
    ensures safe { LeavesEnd world.old world.new result }
{
    match property {
        Property::Class => Ok(class_of_any(world, call)?),
        Property::InstanceDict => Ok(dict_of_any(world, call)?),
        property => {
            let (class, given) = class_and_given(world, call)?;
            class_written(world, property, class, given)
        }
    }
}

// The class of an object.
fn class_of_any(world: &mut World, call: FuncArgs<'_>) -> Result<Answer, Raised>
    requires { Holds world.old (AreNodes call.args.now) }
    ensures ends { EndsAs (λ t u. setter_say u Property.Class call.entry.args.now (bindings t call.entry.kw.now)) world.old world.new result }
    ensures grows { Grows world.old world.new }
    ensures holds { AllHold world.new (of_ended result) }
{
    match one_or_two(call) {
        Err(raised) => Err(raised),
        Ok((object, given)) => set_class(world, object, given),
    }
}

// The dict of an object, which for a class is that of its attributes.
fn dict_of_any(world: &mut World, call: FuncArgs<'_>) -> Result<Answer, Raised>
    requires { Holds world.old (AreNodes call.args.now) }
    ensures ends { EndsAs (λ t u. setter_say u Property.InstanceDict call.entry.args.now (bindings t call.entry.kw.now))
        world.old world.new result }
    ensures grows { Grows world.old world.new }
    ensures holds { AllHold world.new (of_ended result) }
{
    match one_or_two(call) {
        Err(raised) => Err(raised),
        Ok((object, given)) => set_dict(world, object, given),
    }
}

// What is set of a class. Where nothing sets it, there is no setter that could be asked.
fn class_written(
    world: &mut World,
    property: Property,
    class: PyTypeRef,
    given: Option<PyObjectRef>,
) -> Result<Answer, Stop>
    requires class { Holds world.old (IsClass class.0) }
    requires given { IfSome given (λ r. Holds world.old (IsNode r)) }
    ensures ends { Ended result (EndsAs (λ t u. class_written u property class.0 given) world.old world.new) }
    ensures safe { LeavesEnd world.old world.new result }
{
    match property {
        Property::Name => set_name(world, class, given),
        Property::Qualname => set_qualname(world, class, given),
        Property::Module => set_module(world, class, given),
        Property::Bases => set_bases(world, class, given),
        Property::Dict => Ok(set_class_dict(given)?),
        Property::Annotations => set_annotations(world, class, given),
        Property::Class
        | Property::Base
        | Property::Mro
        | Property::Flags
        | Property::TextSignature
        | Property::InstanceDict => Err(Stop::raise(Cause::NoSetter)),
    }
}

// The attributes of a class aren't set as a whole.
fn set_class_dict(given: Option<PyObjectRef>) -> Result<Answer, Raised>
    ensures ends { (u : PlainWorld) → set_class_dict u given ≡ Ends u (ended_of result) }
    ensures holds { (w : World) → AllHold w (of_ended result) }
{
    match given {
        None => Err(Raised::new(Cause::CannotDelete)),
        Some(_) => Err(Raised::new(Cause::ClassDict)),
    }
}

// Another class for an object, which may be a class itself.
fn set_class(
    world: &mut World,
    object: PyObjectRef,
    given: Option<PyObjectRef>,
) -> Result<Answer, Raised>
    requires object { Holds world.old (IsNode object) }
    requires given { IfSome given (λ r. Holds world.old (IsNode r)) }
    ensures ends { EndsAs (λ t u. set_class u object given) world.old world.new result }
    ensures grows { Grows world.old world.new }
    ensures holds { AllHold world.new (of_ended result) }
{
    match given {
        None => Err(Raised::new(Cause::CannotDelete)),
        Some(value) => match world.class_number(value) {
            None => Err(Raised::new(Cause::NotAClass)),
            Some(class) => reclassed(world, object, class),
        },
    }
}

// An object gets another class, unless this is refused.
fn reclassed(world: &mut World, object: PyObjectRef, class: PyTypeRef) -> Result<Answer, Raised>
    requires object { Holds world.old (IsNode object) }
    requires class { Holds world.old (IsClass class.0) }
    ensures ends { EndsAs (λ t u. reclassed u object class.0) world.old world.new result }
    ensures grows { Grows world.old world.new }
    ensures holds { AllHold world.new (of_ended result) }
{
    match world.set_class(object, class) {
        Ok(()) => Ok(Answer::Value(world.fixed(Fixed::None))),
        Err(cause) => Err(Raised::new(cause)),
    }
}

// Another dict for an object that has one. That of a class isn't set.
fn set_dict(
    world: &mut World,
    object: PyObjectRef,
    given: Option<PyObjectRef>,
) -> Result<Answer, Raised>
    requires object { Holds world.old (IsNode object) }
    requires given { IfSome given (λ r. Holds world.old (IsNode r)) }
    ensures ends { EndsAs (λ t u. set_dict u object (class_number (datum_at u object)) given)
        world.old world.new result }
    ensures grows { Grows world.old world.new }
    ensures holds { AllHold world.new (of_ended result) }
{
    match world.class_number(object) {
        Some(_) => set_class_dict(given),
        None => match world.dict_of(object) {
            None => Err(Raised::new(Cause::NoDict)),
            Some(_) => match given {
                None => Err(Raised::new(Cause::CannotDelete)),
                Some(value) => redicted(world, object, value),
            },
        },
    }
}

// An object that has a dict gets another one.
fn redicted(world: &mut World, object: PyObjectRef, value: PyObjectRef) -> Result<Answer, Raised>
    requires object { Holds world.old (IsNode object) }
    requires had { (t : Reading) → is_some (dict_of (plain t world.old) object) ≡ true }
    requires value { Holds world.old (IsNode value) }
    ensures ends { EndsAs (λ t u. redicted u object value) world.old world.new result }
    ensures grows { Grows world.old world.new }
    ensures holds { AllHold world.new (of_ended result) }
{
    if is_dict(world, value) {
        world.set_dict(object, value);
        Ok(Answer::Value(world.fixed(Fixed::None)))
    } else {
        Err(Raised::new(Cause::DictType))
    }
}

// Whether an object is a dict.
fn is_dict(world: &World, object: PyObjectRef) -> bool
    requires { Holds world.now (IsNode object) }
    ensures dict { (t : Reading) → is_dict (datum_at (plain t world.now) object) ≡ result }
    ensures holding { result ≡ true → Holds world.now (Holding object Dict) }
{
    match world.payload(object) {
        Payload::Dict(_) => true,
        _ => false,
    }
}
