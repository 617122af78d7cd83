//! What classes are called, in their modules.

ghost use Rattle.py_node.specs.Stops.{Ended};
ghost use Rattle.row_kit.specs.Below.{codes, false, Err, IfOk, IfSome, option_map, string_bytes, known_text, datum_at, is_text, Reading, Reads, plain, EndsAs, LeavesEnd, AllHold, IsClass, IsNode, Holds, of_node_ref, of_option};
ghost use Rattle.std.specs.Prelude.{◌≡◌, ◌++◌};
ghost use Rattle.row_kit.specs.Say.{in_length, text_made};
ghost use Rattle.row_kit.specs.ClassNames.{builtins, given, in_module, is_getset, module_of, qualname, text_of, text_or};

use crate::give::new_text;
use class_world::World;
use class_world::limits::is_within_limit;
use py_node::{Answer, Cause, Known, OutOfMemory, Payload, PyObjectRef, PyTypeRef, Stop};
use std::alloc::Global;

/// Ends with a new text, unless it is too long.
pub fn limited_text(world: &mut World, text: String) -> Result<Answer, Stop>
    ensures ends { Ended result (EndsAs (λ t u. text_made u (in_length (string_bytes text)))
        world.old world.new) }
    ensures safe { LeavesEnd world.old world.new result }
{
    if is_within_limit(text.len()) {
        new_text(world, text)
    } else {
        Err(Stop::raise(Cause::TooLong))
    }
}

/// The module and the name within it, or else the name alone.
pub fn in_module(
    alloc: Global,
    within: Option<String>,
    qualname: &str,
    name: &str,
) -> Result<String, OutOfMemory>
    ensures { IfOk result (λ s. string_bytes s ≡ in_module (option_map string_bytes within) qualname.now name.now) }
{
    match within {
        Some(module) if !is_builtins(&module) => dotted(alloc, &module, qualname),
        _ => Ok(String::from_str(alloc, name)?),
    }
}

// Whether a module is that of the built-in classes, which is not named.
fn is_builtins(home: &str) -> bool
    ensures { result ≡ is_text home.now builtins }
{
    home == "builtins"
}

// A name within a module.
fn dotted(alloc: Global, home: &str, name: &str) -> Result<String, OutOfMemory>
    ensures { IfOk result (λ s. string_bytes s ≡ home.now ++ codes "." ++ name.now) }
{
    Ok(format!(in alloc; "{home}.{name}")?)
}

/// The name of a class within its module, where it is a text.
pub fn qualname(world: &World, class: PyTypeRef) -> Result<Option<String>, OutOfMemory>
    requires { Holds world.now (IsClass class.0) }
    ensures { IfOk result (λ o. (t : Reading) → Reads t world.now →
        qualname (plain t world.now) class.0 ≡ option_map string_bytes o) }
{
    let given = given(world, class, Known::Qualname);
    text_or(world, given, world.class_name(class))
}

/// The module of a class, where it is a text.
pub fn module_of(world: &World, class: PyTypeRef) -> Result<Option<String>, OutOfMemory>
    requires { Holds world.now (IsClass class.0) }
    ensures { IfOk result (λ o. (t : Reading) → Reads t world.now →
        module_of (plain t world.now) class.0 ≡ option_map string_bytes o) }
{
    let given = given(world, class, Known::Module);
    text_or(world, given, "builtins")
}

/// What a class is itself given under a name, unless that reads the name of other classes.
pub fn given(world: &World, class: PyTypeRef, name: Known) -> Option<PyObjectRef>
    requires { Holds world.now (IsClass class.0) }
    ensures value { (t : Reading) → Reads t world.now → given (plain t world.now) class.0 (known_text name) ≡ result }
    ensures node { IfSome result (λ r. Holds world.now (IsNode r)) }
{
    match world.own_attr(class, world.known(name)) {
        None => None,
        Some(value) => {
            if is_getset(world, value) {
                None
            } else {
                Some(value)
            }
        }
    }
}

// Whether an object reads and sets an attribute of others.
fn is_getset(world: &World, object: PyObjectRef) -> bool
    requires { Holds world.now (IsNode object) }
    ensures { (t : Reading) → is_getset (datum_at (plain t world.now) object) ≡ result }
{
    match world.payload(object) {
        Payload::GetSet(_) => true,
        _ => false,
    }
}

// The text that is given, or else this one, or nothing where what is given is no text.
fn text_or(
    world: &World,
    given: Option<PyObjectRef>,
    text: &str,
) -> Result<Option<String>, OutOfMemory>
    requires { AllHold world.now (of_option of_node_ref given) }
    ensures { IfOk result (λ o. (t : Reading) →
        text_or (plain t world.now) given text.now ≡ option_map string_bytes o) }
{
    match given {
        None => Ok(Some(String::from_str(world.alloc(), text)?)),
        Some(value) => text_of(world, value),
    }
}

/// The text that an object is, if it is one.
pub fn text_of(world: &World, object: PyObjectRef) -> Result<Option<String>, OutOfMemory>
    requires { Holds world.now (IsNode object) }
    ensures { IfOk result (λ o. (t : Reading) →
        text_of (datum_at (plain t world.now) object) ≡ option_map string_bytes o) }
{
    let alloc = world.alloc();
    match world.payload(object) {
        Payload::Text(text) => Ok(Some(String::from_str(alloc, text.as_str())?)),
        _ => Ok(None),
    }
}
