//! The natives of `object` that ask no task.
#![tactic(auto, using(class_world::proofs::Items::item_holds))]

ghost use Rattle.py_node.specs.Stops.{Ended, IfRaised};
ghost use Rattle.proto_call.specs.Below.{codes, false, Err, IfErr, IfOk, string_bytes, digits, Reading, Reads, plain, bindings, IsClass, Holds, AllHold, AreNodes, in_length, in_module, module_of, qualname, of_ended, Held, EndsAs, LeavesEnd};
ghost use Rattle.std.specs.Prelude.{◌≡◌, ◌++◌};
ghost use Rattle.proto_call.specs.ObjectNatives.{object_text, object_native_say, object_repr, object_hash, object_eq, says_nothing, object_subclass_hook};

use class_world::takes::{one, two};
use class_world::{Fixed, World};
use py_node::{
    Answer, Cause, FuncArgs, ObjectNative, OutOfMemory, PyObjectRef, PyTypeRef, Raised, Stop,
};
use row_kit::class_names::{in_module, limited_text, module_of, qualname};
use std::alloc::Global;

/// The text of an object without one of its own, or why there is none.
pub(crate) fn object_text(
    world: &World,
    class: PyTypeRef,
    object: PyObjectRef,
) -> Result<String, Stop>
    requires { Holds world.now (IsClass class.0) }
    ensures text { IfOk result (λ s. (t : Reading) → Reads t world.now →
        object_text (plain t world.now) class.0 object.0 ≡ in_length (string_bytes s)) }
    ensures refused { IfRaised result (λ x. (t : Reading) → Reads t world.now →
        object_text (plain t world.now) class.0 object.0 ≡ Err x) }
{
    let alloc = world.alloc();
    let module = module_of(world, class)?;
    match qualname(world, class)? {
        None => Err(Stop::raise(Cause::QualnameType)),
        Some(qualname) => {
            let name = in_module(alloc, module, qualname.as_str(), world.class_name(class))?;
            let text = numbered(alloc, name.as_str(), object.0)?;
            Ok(text)
        }
    }
}

// The text of an object, by the name of its class and its number.
fn numbered(alloc: Global, name: &str, number: u64) -> Result<String, OutOfMemory>
    ensures { IfOk result (λ s. string_bytes s ≡
        codes "<" ++ name.now ++ codes " object at 0x" ++ digits 16 false number ++ codes ">") }
{
    Ok(format!(in alloc; "<{name} object at 0x{number:x}>")?)
}

/// A native of `object` that asks no task.
pub fn object_native(
    world: &mut World,
    native: ObjectNative,
    call: FuncArgs<'_>,
) -> Result<Answer, Stop>
    requires { Holds world.old (AreNodes call.args.now) }
    ensures ends { Ended result (EndsAs (λ t u. object_native_say u native call.entry.args.now (bindings t call.entry.kw.now))
        world.old world.new) }
    ensures safe { LeavesEnd world.old world.new result }
{
    match native {
        ObjectNative::Repr => object_repr(world, call),
        ObjectNative::Hash => Ok(object_hash(call)?),
        ObjectNative::Eq => Ok(object_eq(world, call)?),
        ObjectNative::Lt | ObjectNative::Le | ObjectNative::Ge | ObjectNative::Gt => {
            Ok(says_nothing(world, call)?)
        }
        ObjectNative::SubclassHook => Ok(subclass_hook(world, call.args)?),
        _ => Err(Stop::raise(Cause::SelfType)),
    }
}

// The text of an object: its class and its number.
fn object_repr(world: &mut World, call: FuncArgs<'_>) -> Result<Answer, Stop>
    requires { Holds world.old (AreNodes call.args.now) }
    ensures ends { Ended result (EndsAs (λ t u. object_repr u call.entry.args.now (bindings t call.entry.kw.now))
        world.old world.new) }
    ensures safe { LeavesEnd world.old world.new result }
{
    let object = one(call)?;
    let text = object_text(world, world.class_of(object), object)?;
    limited_text(world, text)
}

// The hash of an object is its number, of 64 bits with their sign.
fn object_hash(call: FuncArgs<'_>) -> Result<Answer, Raised>
    ensures ends { (w : World) → EndsAs (λ t u. object_hash u call.entry.args.now (bindings t call.entry.kw.now)) w w result }
    ensures holds { (w : Held) → AllHold w (of_ended result) }
{
    let object = one(call)?;
    Ok(Answer::Number(object.0.cast_signed()))
}

// An object is equal to itself. Of others the native says nothing.
fn object_eq(world: &World, call: FuncArgs<'_>) -> Result<Answer, Raised>
    ensures ends { EndsAs (λ t u. object_eq u call.entry.args.now (bindings t call.entry.kw.now)) world.now world.now result }
    ensures holds { AllHold world.now (of_ended result) }
{
    let (a, b) = two(call)?;
    if a.0 == b.0 {
        Ok(Answer::Value(world.truth(true)))
    } else {
        Ok(Answer::Value(world.fixed(Fixed::NotImplemented)))
    }
}

// Two objects of which the native says nothing.
fn says_nothing(world: &World, call: FuncArgs<'_>) -> Result<Answer, Raised>
    ensures ends { EndsAs (λ t u. says_nothing u call.entry.args.now (bindings t call.entry.kw.now)) world.now world.now result }
    ensures holds { AllHold world.now (of_ended result) }
{
    let _both = two(call)?;
    Ok(Answer::Value(world.fixed(Fixed::NotImplemented)))
}

// Whether a class is a subclass without deriving from another: nothing is said of it.
fn subclass_hook(world: &World, args: &[PyObjectRef]) -> Result<Answer, Raised>
    ensures ends { EndsAs (λ t u. object_subclass_hook u args.now) world.now world.now result }
    ensures holds { AllHold world.now (of_ended result) }
{
    match args {
        [] => Err(Raised::new(Cause::ArgCount)),
        _ => Ok(Answer::Value(world.fixed(Fixed::NotImplemented))),
    }
}
