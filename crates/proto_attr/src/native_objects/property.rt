//! The natives of `property`.

ghost use Rattle.py_node.specs.Stops.{Ended};
ghost use Rattle.proto_attr.specs.Below.{Some, class_at, of_ended, Reading, Reads, bindings, plain, spelled, EndsAs, LeavesEnd, AllHold, AreNodes, Grows, Holding, Holds, IsClass, IsName, IsNode, IsOf, of_binding, of_each, of_node_ref, of_option, of_property};
ghost use Rattle.std.specs.Prelude.{◌≡◌};
ghost use Rattle.py_node.specs.declared.built_in.BuiltIn.TheVariants.{Property};
ghost use Rattle.proto_attr.specs.NativeObjects.Descriptors.{bare, may_name, or_old, placed, property_init, property_say, property_set_name, unless_given, unless_none, property_part, part_set, with_part, with_parts, without_none};

use crate::native_objects::receivers::own_property;
use class_world::takes::{three, two};
use class_world::{Fixed, World};
use py_node::{
    Answer, Cause, FuncArgs, Payload, PropertyNative, PyObjectRef, PyProperty, PyStrInterned,
    PyTypeRef, Raised, Stop,
};

/// A native of `property`.
pub fn property_native(
    world: &mut World,
    native: PropertyNative,
    call: FuncArgs<'_>,
) -> Result<Answer, Stop>
    requires args { Holds world.old (AreNodes call.args.now) }
    requires kw { AllHold world.old (of_each of_binding call.kw.now) }
    ensures ends { Ended result (EndsAs (λ t u. property_say u native call.entry.args.now (bindings t call.entry.kw.now))
        world.old world.new) }
    ensures safe { LeavesEnd world.old world.new result }
{
    match native {
        PropertyNative::Init => Ok(property_init(world, call)?),
        PropertyNative::SetName => Ok(property_set_name(world, call)?),
        PropertyNative::Getter | PropertyNative::Setter | PropertyNative::Deleter => {
            property_part(world, native, call)
        }
        _ => Err(Stop::raise(Cause::SelfType)),
    }
}

// A property gets its parts, by their places and by keywords.
fn property_init(world: &mut World, call: FuncArgs<'_>) -> Result<Answer, Raised>
    requires args { Holds world.old (AreNodes call.args.now) }
    requires kw { AllHold world.old (of_each of_binding call.kw.now) }
    ensures ends { EndsAs (λ t u. property_init u call.entry.args.now (bindings t call.entry.kw.now)) world.old world.new result }
    ensures grows { Grows world.old world.new }
    ensures holds { AllHold world.new (of_ended result) }
{
    let (object, _old) = own_property(world, call.args)?;
    if call.args.len() > 6 {
        return Err(Raised::new(Cause::ArgCount));
    }
    let Some(parts) = with_parts(world, placed(call.args), call.kw) else {
        return Err(Raised::new(Cause::UnexpectedKeyword));
    };
    let parts = without_none(parts);
    if !may_name(world, parts.name) {
        return Err(Raised::new(Cause::SelfType));
    }
    world.set_property(object, parts);
    Ok(Answer::Value(world.fixed(Fixed::None)))
}

// The parts by their places, after the property itself.
fn placed(args: &[PyObjectRef]) -> PyProperty
    ensures { result ≡ placed args.now }
{
    PyProperty {
        fget: args.get(1).copied(),
        fset: args.get(2).copied(),
        fdel: args.get(3).copied(),
        doc: args.get(4).copied(),
        name: args.get(5).copied(),
    }
}

// The parts with those that keywords give, unless one names none or has a value already.
fn with_parts(
    world: &World,
    parts: PyProperty,
    kw: &[(PyStrInterned, PyObjectRef)],
) -> Option<PyProperty>
    requires parts { AllHold world.now (of_property parts) }
    requires kw { AllHold world.now (of_each of_binding kw.now) }
    ensures parts { (t : Reading) → Reads t world.now → with_parts (Some parts) (bindings t kw.now) ≡ result }
    ensures holds { AllHold world.now (of_option of_property result) }
{
    let mut parts = parts;
    for pair in kw {
        parts = with_part(world, parts, pair.0, pair.1)?;
    }
    Some(parts)
}

// A keyword gives a part its value.
fn with_part(
    world: &World,
    parts: PyProperty,
    name: PyStrInterned,
    value: PyObjectRef,
) -> Option<PyProperty>
    requires parts { AllHold world.now (of_property parts) }
    requires name { Holds world.now (IsName name) }
    requires value { Holds world.now (IsNode value) }
    ensures part { (t : Reading) → Reads t world.now → with_part parts (spelled t name) value ≡ result }
    ensures holds { AllHold world.now (of_option of_property result) }
{
    match world.names().text(name) {
        "fget" => unless_given(
            parts.fget,
            PyProperty {
                fget: Some(value),
                ..parts
            },
        ),
        "fset" => unless_given(
            parts.fset,
            PyProperty {
                fset: Some(value),
                ..parts
            },
        ),
        "fdel" => unless_given(
            parts.fdel,
            PyProperty {
                fdel: Some(value),
                ..parts
            },
        ),
        "doc" => unless_given(
            parts.doc,
            PyProperty {
                doc: Some(value),
                ..parts
            },
        ),
        "name" => unless_given(
            parts.name,
            PyProperty {
                name: Some(value),
                ..parts
            },
        ),
        _ => None,
    }
}

// Other parts, unless this one has a value already.
fn unless_given(old: Option<PyObjectRef>, parts: PyProperty) -> Option<PyProperty>
    ensures { result ≡ unless_given old parts }
{
    match old {
        None => Some(parts),
        Some(_) => None,
    }
}

// None counts as absent.
fn without_none(parts: PyProperty) -> PyProperty
    ensures parts { result ≡ without_none parts }
    ensures holds { (w : World) → AllHold w (of_property parts) → AllHold w (of_property result) }
{
    PyProperty {
        fget: unless_none(parts.fget),
        fset: unless_none(parts.fset),
        fdel: unless_none(parts.fdel),
        doc: unless_none(parts.doc),
        name: unless_none(parts.name),
    }
}

// None counts as absent.
fn unless_none(object: Option<PyObjectRef>) -> Option<PyObjectRef>
    ensures part { result ≡ unless_none object }
    ensures holds { (w : World) → AllHold w (of_option of_node_ref object) → AllHold w (of_option of_node_ref result) }
{
    match object {
        Some(object) if object.0 != Fixed::None.node().0 => Some(object),
        _ => None,
    }
}

// Whether a name, if there is one, is a text.
fn may_name(world: &World, name: Option<PyObjectRef>) -> bool
    requires { AllHold world.now (of_option of_node_ref name) }
    ensures { (t : Reading) → may_name (plain t world.now) name ≡ result }
{
    match name {
        None => true,
        Some(name) => match world.payload(name) {
            Payload::Text(_) => true,
            _ => false,
        },
    }
}

// A property is told the name that it gets in a class.
fn property_set_name(world: &mut World, call: FuncArgs<'_>) -> Result<Answer, Raised>
    requires { Holds world.old (AreNodes call.args.now) }
    ensures ends { EndsAs (λ t u. property_set_name u call.entry.args.now (bindings t call.entry.kw.now)) world.old world.new result }
    ensures grows { Grows world.old world.new }
    ensures holds { AllHold world.new (of_ended result) }
{
    let (object, parts) = own_property(world, call.args)?;
    let (_, _, name) = three(call)?;
    let parts = PyProperty {
        name: Some(name),
        ..parts
    };
    world.set_property(object, parts);
    Ok(Answer::Value(world.fixed(Fixed::None)))
}

// A property of the same class with another part.
fn property_part(
    world: &mut World,
    native: PropertyNative,
    call: FuncArgs<'_>,
) -> Result<Answer, Stop>
    requires { Holds world.old (AreNodes call.args.now) }
    ensures ends { Ended result (EndsAs (λ t u. property_part u native call.entry.args.now (bindings t call.entry.kw.now))
        world.old world.new) }
    ensures safe { LeavesEnd world.old world.new result }
{
    let (object, parts) = own_property(world, call.args)?;
    let (_, part) = two(call)?;
    let parts = with_other(native, bare(parts), part);
    let class = class_of_property(world, object);
    let boxed = Box::new(world.alloc(), parts)?;
    let node = world.make_node(class, Payload::Property(boxed))?;
    Ok(Answer::Value(node))
}

// The class of a property, whose objects are properties.
fn class_of_property(world: &World, object: PyObjectRef) -> PyTypeRef
    requires node { Holds world.now (IsNode object) }
    requires holding { Holds world.now (Holding object Property) }
    ensures reads { (t : Reading) → class_at (plain t world.now) object ≡ Some result.0 }
    ensures class { Holds world.now (IsClass result.0) }
    ensures of { Holds world.now (IsOf result.0 Property) }
{
    world.sound();
    world.readable();
    let _payload = world.payload(object);
    world.class_of(object)
}

// The parts without doc and name.
fn bare(parts: PyProperty) -> PyProperty
    ensures { result ≡ bare parts }
{
    PyProperty {
        doc: None,
        name: None,
        ..parts
    }
}

// The parts with the one that a native sets. None keeps the old one.
fn with_other(native: PropertyNative, parts: PyProperty, part: PyObjectRef) -> PyProperty
    ensures { result ≡ part_set native parts part }
{
    match native {
        PropertyNative::Getter => PyProperty {
            fget: or_old(part, parts.fget),
            ..parts
        },
        PropertyNative::Setter => PyProperty {
            fset: or_old(part, parts.fset),
            ..parts
        },
        PropertyNative::Deleter => PyProperty {
            fdel: or_old(part, parts.fdel),
            ..parts
        },
        _ => parts,
    }
}

// A part, or else the old one where it is None.
fn or_old(part: PyObjectRef, old: Option<PyObjectRef>) -> Option<PyObjectRef>
    ensures { result ≡ or_old part old }
{
    if part.0 == Fixed::None.node().0 {
        old
    } else {
        Some(part)
    }
}
