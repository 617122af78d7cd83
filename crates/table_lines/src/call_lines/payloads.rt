//! What the objects are that definitions make.

ghost use Rattle.std.specs.Prelude.{IfOk};
ghost use Rattle.class_world.specs.Sound.{AllHold, Holds, IsClass, IsName, IsNode, of_payload};

use crate::NoValue;
use class_world::World;
use py_node::{OutOfMemory, Payload, PyObjectRef, PyStrInterned, PyTypeRef};
use world_text::show::show;

/// What a new node is that holds a native, or wraps an object.
pub fn told_node(world: &World, made: Result<PyObjectRef, OutOfMemory>) -> Result<String, NoValue>
    requires { IfOk made (λ r. Holds world.now (IsNode r)) }
{
    match made {
        Ok(node) => Ok(told(world, world.payload(node))?),
        Err(OutOfMemory) => Err(NoValue),
    }
}

/// What an object is that holds this.
pub fn told_payload(world: &World, made: Result<Payload, OutOfMemory>) -> Result<String, NoValue>
    requires { IfOk made (λ p. AllHold world.now (of_payload p)) }
{
    match made {
        Ok(payload) => Ok(told(world, &payload)?),
        Err(OutOfMemory) => Err(NoValue),
    }
}

// The same, by its sort.
fn told(world: &World, payload: &Payload) -> Result<String, OutOfMemory>
    requires { AllHold world.now (of_payload payload.now) }
{
    match payload {
        Payload::NativeFunction(function) => {
            let function = function.get();
            match function.target {
                None => named(world, "a function", function.name),
                Some(target) => {
                    let text = named(world, "a function", function.name)?;
                    bound(world, text, target)
                }
            }
        }
        Payload::MethodDescriptor(method) => {
            let method = method.get();
            of_class(world, "a method", method.class, method.name)
        }
        Payload::BuiltinMethod(method) => {
            let method = method.get();
            let text = of_class(world, "a method", method.class, method.name)?;
            bound(world, text, method.target)
        }
        Payload::Member(member) => of_class(world, "a member", member.class, member.name),
        Payload::ClassMethod(callable) => wrapped(world, "a class method", *callable),
        Payload::StaticMethod(callable) => wrapped(world, "a static method", *callable),
        _ => Ok(String::from_str(world.alloc(), "another object")?),
    }
}

// Something that has a name.
fn named(world: &World, what: &str, name: PyStrInterned) -> Result<String, OutOfMemory>
    requires { Holds world.now (IsName name) }
{
    let name = world.spelling(name)?;
    Ok(format!(in world.alloc(); "{what} named {}", name.as_str())?)
}

// Something of a class that has a name.
fn of_class(
    world: &World,
    what: &str,
    class: PyTypeRef,
    name: PyStrInterned,
) -> Result<String, OutOfMemory>
    requires class { Holds world.now (IsClass class.0) }
    requires name { Holds world.now (IsName name) }
{
    let name = world.spelling(name)?;
    let class = world.class_name(class);
    Ok(format!(in world.alloc(); "{what} of {class} named {}", name.as_str())?)
}

// The same, bound to an object.
fn bound(world: &World, text: String, target: PyObjectRef) -> Result<String, OutOfMemory>
    requires { Holds world.now (IsNode target) }
{
    let target = show(world, target)?;
    Ok(format!(in world.alloc(); "{}, bound to {}", text.as_str(), target.as_str())?)
}

// Something that wraps an object.
fn wrapped(world: &World, what: &str, object: PyObjectRef) -> Result<String, OutOfMemory>
    requires { Holds world.now (IsNode object) }
{
    let object = show(world, object)?;
    Ok(format!(in world.alloc(); "{what} of {}", object.as_str())?)
}
