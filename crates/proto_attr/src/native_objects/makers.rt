//! What makes the objects of built-in classes.

ghost use Rattle.py_node.specs.Stops.{Ended};
ghost use Rattle.proto_attr.specs.Below.{Err, raised, EndsAs, LeavesEnd, AreNodes, Holds};
ghost use Rattle.std.specs.Prelude.{◌≡◌};
ghost use Rattle.proto_attr.specs.NativeObjects.Makers.{maker_say};

use class_world::World;
use py_node::{
    Answer, Boxed, BuiltIn, Cause, Payload, PyDict, PyObjectRef, PyProperty, PySuper, Stop,
};
use row_kit::take_classes::heir;

/// A new object of the class that is the first argument: of a built-in class or of one that derives from it.
pub fn maker_native(
    world: &mut World,
    built_in: BuiltIn,
    args: &[PyObjectRef],
) -> Result<Answer, Stop>
    requires { Holds world.old (AreNodes args.now) }
    ensures ends { Ended result (EndsAs (λ t u. maker_say u built_in args.now) world.old world.new) }
    ensures safe { LeavesEnd world.old world.new result }
{
    match built_in {
        BuiltIn::Int | BuiltIn::Bool | BuiltIn::Str | BuiltIn::Tuple => elsewhere(),
        BuiltIn::ClassMethod | BuiltIn::StaticMethod => elsewhere(),
        BuiltIn::List => new_list(world, args),
        BuiltIn::Dict => new_dict(world, args),
        BuiltIn::Property => new_property(world, args),
        BuiltIn::Super => new_super(world, args),
        _ => {
            let _class = heir(world, built_in, args)?;
            Err(Stop::raise(Cause::CannotCreate))
        }
    }
}

// What asks another task to make an object is not made here.
fn elsewhere() -> Result<Answer, Stop>
    ensures { result ≡ Err (Stop.Raised (raised Cause.SelfType)) }
{
    Err(Stop::raise(Cause::SelfType))
}

// A new list, which is empty.
fn new_list(world: &mut World, args: &[PyObjectRef]) -> Result<Answer, Stop>
    requires { Holds world.old (AreNodes args.now) }
    ensures ends { Ended result (EndsAs (λ t u. maker_say u BuiltIn.List args.now) world.old world.new) }
    ensures safe { LeavesEnd world.old world.new result }
{
    let class = heir(world, BuiltIn::List, args)?;
    let items = Vec::new(world.alloc());
    let node = world.make_node(class, Payload::List(items))?;
    Ok(Answer::Value(node))
}

// A new dict, which is empty.
fn new_dict(world: &mut World, args: &[PyObjectRef]) -> Result<Answer, Stop>
    requires { Holds world.old (AreNodes args.now) }
    ensures ends { Ended result (EndsAs (λ t u. maker_say u BuiltIn.Dict args.now) world.old world.new) }
    ensures safe { LeavesEnd world.old world.new result }
{
    let class = heir(world, BuiltIn::Dict, args)?;
    let dict = PyDict::new(world.alloc());
    let node = world.make_node(class, Payload::Dict(dict))?;
    Ok(Answer::Value(node))
}

// A new property, which has no parts.
fn new_property(world: &mut World, args: &[PyObjectRef]) -> Result<Answer, Stop>
    requires { Holds world.old (AreNodes args.now) }
    ensures ends { Ended result (EndsAs (λ t u. maker_say u BuiltIn.Property args.now) world.old world.new) }
    ensures safe { LeavesEnd world.old world.new result }
{
    let class = heir(world, BuiltIn::Property, args)?;
    let parts = PyProperty {
        fget: None,
        fset: None,
        fdel: None,
        doc: None,
        name: None,
    };
    let boxed = Box::new(world.alloc(), parts)?;
    let node = world.make_node(class, Payload::Property(boxed))?;
    Ok(Answer::Value(node))
}

// A new `super`, which looks past `object` and is bound to nothing.
fn new_super(world: &mut World, args: &[PyObjectRef]) -> Result<Answer, Stop>
    requires { Holds world.old (AreNodes args.now) }
    ensures ends { Ended result (EndsAs (λ t u. maker_say u BuiltIn.Super args.now) world.old world.new) }
    ensures safe { LeavesEnd world.old world.new result }
{
    let class = heir(world, BuiltIn::Super, args)?;
    let typ = world.built_in(BuiltIn::Object);
    let parts = Boxed::new(world.alloc(), PySuper { typ, obj: None })?;
    let node = world.make_node(class, Payload::Super(parts))?;
    Ok(Answer::Value(node))
}
