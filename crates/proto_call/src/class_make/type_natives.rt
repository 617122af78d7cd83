//! The natives of `type` that ask no task.
#![tactic(auto, using(class_world::proofs::Items::item_holds))]

ghost use Rattle.py_node.specs.Stops.{Ended};
ghost use Rattle.proto_call.specs.Below.{map, IfOk, string_bytes, ℕ, Err, IfErr, bindings, Reading, Reads, plain, EndsAs, LeavesEnd, AreNodes, Holds, IsClass, IsNode, AllHold, in_length, in_module, module_of, qualname, Said, Ends, PyObjectRef as Object, of_ended};
ghost use Rattle.std.specs.Prelude.{◌≡◌};
ghost use Rattle.proto_call.specs.ClassMake.TypeNatives.{type_dir, class_text, with_class_and, type_native_say, type_repr, instance_check, subclass_check, type_subclasses, type_mro, type_prepare, type_subclass_hook};

use class_world::takes::two;
use class_world::{Fixed, World};
use py_node::{
    Answer, BuiltIn, Cause, FuncArgs, OutOfMemory, Payload, PyDict, PyObjectRef, PyTypeRef, Raised,
    Stop, TypeNative, caught,
};
use row_kit::class_attributes::key_all;
use row_kit::class_names::{in_module, limited_text, module_of, qualname};
use row_kit::class_nodes::class_nodes;
use row_kit::give::{new_object, new_sized};
use row_kit::take_classes::{lone_class, own_class};
use std::alloc::Global;

/// The names of a class's attributes, its own and those that it inherits, as a new list.
pub(crate) fn type_dir(world: &mut World, call: FuncArgs<'_>) -> Result<Answer, Stop>
    requires { Holds world.old (AreNodes call.args.now) }
    ensures ends { Ended result (EndsAs (λ t u. type_dir u call.entry.args.now (bindings t call.entry.kw.now)) world.old world.new) }
    ensures safe { LeavesEnd world.old world.new result }
{
    let class = lone_class(world, call)?;
    let attrs = world.get_attributes(class)?;
    let entries = key_all(world, &attrs)?;
    let keys = keys_of(world.alloc(), &entries)?;
    new_sized(world, BuiltIn::List, Payload::List(keys))
}

/// The keys alone.
pub fn keys_of(
    alloc: Global,
    entries: &[(PyObjectRef, PyObjectRef)],
) -> Result<Vec<PyObjectRef>, OutOfMemory>
    ensures { IfOk result (λ v. v.items ≡ map (λ e. e.0) entries.now) }
{
    let mut keys = Vec::new(alloc);
    for entry in entries {
        keys.push(entry.0)?;
    }
    Ok(keys)
}

/// The text of a class.
pub(crate) fn class_text(world: &World, class: PyTypeRef) -> Result<String, OutOfMemory>
    requires { Holds world.now (IsClass class.0) }
    ensures { IfOk result (λ s. (t : Reading) → Reads t world.now →
        class_text (plain t world.now) class.0 ≡ in_length (string_bytes s)) }
{
    let alloc = world.alloc();
    let module = module_of(world, class)?;
    let qualname = qualname(world, class)?;
    let name = world.class_name(class);
    let full = match qualname {
        None => in_module(alloc, module, name, name)?,
        Some(qualname) => in_module(alloc, module, qualname.as_str(), name)?,
    };
    Ok(format!(in alloc; "<class '{full}'>")?)
}

/// The class that the first argument is, and the second argument, or why the arguments are refused.
pub(crate) fn class_and(
    world: &World,
    call: FuncArgs<'_>,
) -> Result<(PyTypeRef, PyObjectRef), Raised>
    requires { Holds world.now (AreNodes call.args.now) }
    ensures given { IfOk result (λ p. (t : Reading) (go : ℕ → Object → Said) →
        with_class_and (plain t world.now) call.entry.args.now (bindings t call.entry.kw.now) go ≡ go p.0.0 p.1) }
    ensures refused { IfErr result (λ x. (t : Reading) (go : ℕ → Object → Said) →
        with_class_and (plain t world.now) call.entry.args.now (bindings t call.entry.kw.now) go ≡ Ends (plain t world.now) (Err x)) }
    ensures class { IfOk result (λ p. Holds world.now (IsClass p.0.0)) }
    ensures node { IfOk result (λ p. Holds world.now (IsNode p.1)) }
{
    let class = own_class(world, call.args)?;
    let (_, other) = two(call)?;
    Ok((class, other))
}

/// A native of `type` that asks no task.
pub fn type_native(
    world: &mut World,
    native: TypeNative,
    call: FuncArgs<'_>,
) -> Result<Answer, Stop>
    requires { Holds world.old (AreNodes call.args.now) }
    ensures ends { Ended result (EndsAs (λ t u. type_native_say u native call.entry.args.now (bindings t call.entry.kw.now))
        world.old world.new) }
    ensures safe { LeavesEnd world.old world.new result }
{
    match native {
        TypeNative::Repr => type_repr(world, call),
        TypeNative::InstanceCheck => Ok(instance_check(world, call)?),
        TypeNative::SubclassCheck => Ok(subclass_check(world, call)?),
        TypeNative::Subclasses => type_subclasses(world, call),
        TypeNative::Dir => type_dir(world, call),
        TypeNative::Mro => type_mro(world, call),
        TypeNative::Prepare => type_prepare(world, call.args),
        TypeNative::SubclassHook => Ok(type_subclass_hook(world, call.args)?),
        _ => Err(Stop::raise(Cause::SelfType)),
    }
}

// The text of a class.
fn type_repr(world: &mut World, call: FuncArgs<'_>) -> Result<Answer, Stop>
    requires { Holds world.old (AreNodes call.args.now) }
    ensures ends { Ended result (EndsAs (λ t u. type_repr u call.entry.args.now (bindings t call.entry.kw.now)) world.old world.new) }
    ensures safe { LeavesEnd world.old world.new result }
{
    let class = lone_class(world, call)?;
    let text = class_text(world, class)?;
    limited_text(world, text)
}

// Whether the class of an object derives from a class.
fn instance_check(world: &World, call: FuncArgs<'_>) -> Result<Answer, Raised>
    requires { Holds world.now (AreNodes call.args.now) }
    ensures ends { EndsAs (λ t u. instance_check u call.entry.args.now (bindings t call.entry.kw.now)) world.now world.now result }
    ensures holds { AllHold world.now (of_ended result) }
{
    let (class, object) = class_and(world, call)?;
    Ok(Answer::Value(world.truth(world.is_instance(object, class))))
}

// Whether a class derives from another one.
fn subclass_check(world: &World, call: FuncArgs<'_>) -> Result<Answer, Raised>
    requires { Holds world.now (AreNodes call.args.now) }
    ensures ends { EndsAs (λ t u. subclass_check u call.entry.args.now (bindings t call.entry.kw.now)) world.now world.now result }
    ensures holds { AllHold world.now (of_ended result) }
{
    let (class, other) = class_and(world, call)?;
    match world.class_number(other) {
        None => Err(Raised::new(Cause::SelfType)),
        Some(other) => Ok(Answer::Value(world.truth(world.is_sub(other, class)))),
    }
}

// The classes that have a class among their bases.
fn type_subclasses(world: &mut World, call: FuncArgs<'_>) -> Result<Answer, Stop>
    requires { Holds world.old (AreNodes call.args.now) }
    ensures ends { Ended result (EndsAs (λ t u. type_subclasses u call.entry.args.now (bindings t call.entry.kw.now))
        world.old world.new) }
    ensures safe { LeavesEnd world.old world.new result }
{
    let class = lone_class(world, call)?;
    let nodes = class_nodes(world, world.classes().subclasses(class))?;
    new_sized(world, BuiltIn::List, Payload::List(nodes))
}

// The linearisation of a class.
fn type_mro(world: &mut World, call: FuncArgs<'_>) -> Result<Answer, Stop>
    requires { Holds world.old (AreNodes call.args.now) }
    ensures ends { Ended result (EndsAs (λ t u. type_mro u call.entry.args.now (bindings t call.entry.kw.now)) world.old world.new) }
    ensures safe { LeavesEnd world.old world.new result }
{
    let class = lone_class(world, call)?;
    let nodes = class_nodes(world, world.classes().mro(class))?;
    new_sized(world, BuiltIn::List, Payload::List(nodes))
}

// A new namespace, for a name and bases that may be given.
fn type_prepare(world: &mut World, args: &[PyObjectRef]) -> Result<Answer, Stop>
    requires { Holds world.old (AreNodes args.now) }
    ensures ends { Ended result (EndsAs (λ t u. type_prepare u args.now) world.old world.new) }
    ensures safe { LeavesEnd world.old world.new result }
{
    own_class(world, args)?;
    if args.len() > 3 {
        return Err(Stop::raise(Cause::ArgCount));
    }
    let dict = PyDict::new(world.alloc());
    new_object(world, BuiltIn::Dict, Payload::Dict(dict))
}

// Whether a class is a subclass without deriving from another: nothing is said of it.
fn type_subclass_hook(world: &World, args: &[PyObjectRef]) -> Result<Answer, Raised>
    requires { Holds world.now (AreNodes args.now) }
    ensures ends { EndsAs (λ t u. type_subclass_hook u args.now) world.now world.now result }
    ensures holds { AllHold world.now (of_ended result) }
{
    let _class = own_class(world, args)?;
    Ok(Answer::Value(world.fixed(Fixed::NotImplemented)))
}
