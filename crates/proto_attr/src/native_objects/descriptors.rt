//! The natives of descriptors and of `super`.

ghost use Rattle.py_node.specs.Stops.{Ended};
ghost use Rattle.proto_attr.specs.Below.{Err, IfOk, option_map, string_bytes, of_ended, Reading, Reads, bindings, plain, spelled, EndsAs, LeavesEnd, AllHold, AreNodes, Grows, IsClass, IsName, Holds, of_option, of_start};
ghost use Rattle.std.specs.Prelude.{◌≡◌, ◌∷◌};
ghost use Rattle.proto_attr.specs.NativeObjects.Descriptors.{callable_say, descriptor_native_say, super_say, wrapper_say, method_repr, member_repr, method_text, member_text, bound_text, super_repr, super_text, static_init};

use crate::native_objects::receivers::{own_member, own_method, own_static, own_super};
use class_world::takes::{one, two};
use class_world::{Fixed, World};
use py_node::{
    Answer, CallableNative, Cause, DescriptorNative, FuncArgs, OutOfMemory, Payload, PyStrInterned,
    PySuper, PyTypeRef, Raised, Stop, SuperNative, WrapperNative,
};
use row_kit::class_names::limited_text;
use std::alloc::Global;

/// A native of what is called or bound.
pub fn callable_native(
    world: &mut World,
    native: CallableNative,
    call: FuncArgs<'_>,
) -> Result<Answer, Stop>
    requires { Holds world.old (AreNodes call.args.now) }
    ensures ends { Ended result (EndsAs (λ t u. callable_say u native call.entry.args.now (bindings t call.entry.kw.now))
        world.old world.new) }
    ensures safe { LeavesEnd world.old world.new result }
{
    match native {
        CallableNative::ReprMethodDescriptor => method_repr(world, call),
        _ => Err(Stop::raise(Cause::SelfType)),
    }
}

/// A native of what reads and sets attributes of objects.
pub fn descriptor_native(
    world: &mut World,
    native: DescriptorNative,
    call: FuncArgs<'_>,
) -> Result<Answer, Stop>
    requires { Holds world.old (AreNodes call.args.now) }
    ensures ends { Ended result (EndsAs (λ t u. descriptor_native_say u native call.entry.args.now (bindings t call.entry.kw.now))
        world.old world.new) }
    ensures safe { LeavesEnd world.old world.new result }
{
    match native {
        DescriptorNative::MemberRepr => member_repr(world, call),
        _ => Err(Stop::raise(Cause::SelfType)),
    }
}

/// A native of `super`.
pub fn super_native(
    world: &mut World,
    native: SuperNative,
    call: FuncArgs<'_>,
) -> Result<Answer, Stop>
    requires { Holds world.old (AreNodes call.args.now) }
    ensures ends { Ended result (EndsAs (λ t u. super_say u native call.entry.args.now (bindings t call.entry.kw.now))
        world.old world.new) }
    ensures safe { LeavesEnd world.old world.new result }
{
    match native {
        SuperNative::Repr => super_repr(world, call),
        _ => Err(Stop::raise(Cause::SelfType)),
    }
}

/// A native of class methods and static methods.
pub fn wrapper_native(
    world: &mut World,
    native: WrapperNative,
    call: FuncArgs<'_>,
) -> Result<Answer, Stop>
    requires { Holds world.old (AreNodes call.args.now) }
    ensures ends { Ended result (EndsAs (λ t u. wrapper_say u native call.entry.args.now (bindings t call.entry.kw.now))
        world.old world.new) }
    ensures safe { LeavesEnd world.old world.new result }
{
    match native {
        WrapperNative::StaticInit => Ok(static_init(world, call)?),
        _ => Err(Stop::raise(Cause::SelfType)),
    }
}

// The text of a native as a method: its name and its class.
fn method_repr(world: &mut World, call: FuncArgs<'_>) -> Result<Answer, Stop>
    requires { Holds world.old (AreNodes call.args.now) }
    ensures ends { Ended result (EndsAs (λ t u. method_repr u call.entry.args.now (bindings t call.entry.kw.now)) world.old world.new) }
    ensures safe { LeavesEnd world.old world.new result }
{
    let (_object, (class, name)) = own_method(world, call.args)?;
    one(call)?;
    let text = method_text(world, class, name)?;
    limited_text(world, text)
}

// The text of a member: its name and its class.
fn member_repr(world: &mut World, call: FuncArgs<'_>) -> Result<Answer, Stop>
    requires { Holds world.old (AreNodes call.args.now) }
    ensures ends { Ended result (EndsAs (λ t u. member_repr u call.entry.args.now (bindings t call.entry.kw.now)) world.old world.new) }
    ensures safe { LeavesEnd world.old world.new result }
{
    let (_object, (class, name)) = own_member(world, call.args)?;
    one(call)?;
    let text = member_text(world, class, name)?;
    limited_text(world, text)
}

// The same for a native of this class and this name.
fn method_text(world: &World, class: PyTypeRef, name: PyStrInterned) -> Result<String, OutOfMemory>
    requires class { Holds world.now (IsClass class.0) }
    requires name { Holds world.now (IsName name) }
    ensures { IfOk result (λ s. (t : Reading) → Reads t world.now →
        string_bytes s ≡ method_text (plain t world.now) (class.0, spelled t name)) }
{
    let alloc = world.alloc();
    let name = world.spelling(name)?;
    let class = world.class_name(class);
    Ok(format!(in alloc; "<method '{name}' of '{class}' objects>")?)
}

// The same for a member of this class and this name.
fn member_text(world: &World, class: PyTypeRef, name: PyStrInterned) -> Result<String, OutOfMemory>
    requires class { Holds world.now (IsClass class.0) }
    requires name { Holds world.now (IsName name) }
    ensures { IfOk result (λ s. (t : Reading) → Reads t world.now →
        string_bytes s ≡ member_text (plain t world.now) (class.0, spelled t name)) }
{
    let alloc = world.alloc();
    let name = world.spelling(name)?;
    let class = world.class_name(class);
    Ok(format!(in alloc; "<member '{name}' of '{class}' objects>")?)
}

// The text of a `super`: the class past which it looks, and the class where it starts.
fn super_repr(world: &mut World, call: FuncArgs<'_>) -> Result<Answer, Stop>
    requires { Holds world.old (AreNodes call.args.now) }
    ensures ends { Ended result (EndsAs (λ t u. super_repr u call.entry.args.now (bindings t call.entry.kw.now)) world.old world.new) }
    ensures safe { LeavesEnd world.old world.new result }
{
    let (_object, own) = own_super(world, call.args)?;
    one(call)?;
    let text = super_text(world, own)?;
    limited_text(world, text)
}

// The same for what a `super` holds.
fn super_text(world: &World, own: PySuper) -> Result<String, OutOfMemory>
    requires { AllHold world.now (IsClass own.typ.0 ∷ of_option of_start own.obj) }
    ensures { IfOk result (λ s. (t : Reading) → string_bytes s ≡
        super_text (plain t world.now) (own.typ.0, option_map (λ b. (b.0, b.1.0)) own.obj)) }
{
    let alloc = world.alloc();
    let past = world.class_name(own.typ);
    let start = match own.obj {
        None => None,
        Some((_, start)) => Some(world.class_name(start)),
    };
    bound_text(alloc, past, start)
}

// The same for the names of the class past which it looks and of that where it starts.
fn bound_text(alloc: Global, past: &str, start: Option<&str>) -> Result<String, OutOfMemory>
    ensures { IfOk result (λ s. string_bytes s ≡ bound_text past.now (option_map (λ x. x.now) start.entry)) }
{
    match start {
        None => Ok(format!(in alloc; "<super: <class '{past}'>, NULL>")?),
        Some(start) => Ok(format!(in alloc; "<super: <class '{past}'>, <{start} object>>")?),
    }
}

// A static method wraps the callable that it is given.
fn static_init(world: &mut World, call: FuncArgs<'_>) -> Result<Answer, Raised>
    requires { Holds world.old (AreNodes call.args.now) }
    ensures ends { EndsAs (λ t u. static_init u call.entry.args.now (bindings t call.entry.kw.now)) world.old world.new result }
    ensures grows { Grows world.old world.new }
    ensures holds { AllHold world.new (of_ended result) }
{
    let (object, _old) = own_static(world, call.args)?;
    let (_, callable) = two(call)?;
    world.set_payload(object, Payload::StaticMethod(callable));
    Ok(Answer::Value(world.fixed(Fixed::None)))
}
