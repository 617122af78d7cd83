//! The natives that ask nothing.

ghost use Rattle.py_node.specs.Stops.{Ended};
ghost use Rattle.vm_eval.specs.Below.{IfOk, of_args, bindings, AllHold, EndsAs, LeavesEnd};
ghost use Rattle.vm_eval.specs.OfNatives.Say.{native_by};

use class_world::World;
use native_containers::native_texts::{compare_text, text_native};
use native_containers::{dict_native, iterator_native, list_native, tuple_native};
use proto_attr::native_objects::{
    callable_native, descriptor_native, getter_native, getter_of_native, maker_native,
    property_native, setter_native, setter_of_native, super_native, wrapper_native,
};
use proto_ops::native_numbers::{
    arithmetic_native, bits_native, compare_native, fixed_native, number_native,
};
use py_node::{Answer, BuiltIn, Cause, FuncArgs, NativeEntry, Stop};

/// How a native ends that asks nothing.
pub(crate) fn plain_native(
    world: &mut World,
    entry: NativeEntry,
    call: FuncArgs<'_>,
) -> Result<Answer, Stop>
    requires { AllHold world.old (of_args call.args.now call.kw.now) }
    ensures ends { Ended result (EndsAs (λ t u. native_by u entry call.entry.args.now (bindings t call.entry.kw.now))
        world.old world.new) }
    ensures safe { LeavesEnd world.old world.new result }
{
    match entry {
        NativeEntry::OfFixed(native) => fixed_native(world, native, call),
        NativeEntry::OfNumber(native) => number_native(world, native, call),
        NativeEntry::OfArithmetic(native) => arithmetic_native(world, native, call),
        NativeEntry::OfBits(native) => bits_native(world, native, call),
        NativeEntry::OfStr(native) => text_native(world, native, call),
        NativeEntry::Compare(BuiltIn::Int, native) => Ok(compare_native(world, native, call)?),
        NativeEntry::Compare(BuiltIn::Str, native) => Ok(compare_text(world, native, call)?),
        NativeEntry::OfTuple(native) => tuple_native(world, native, call),
        NativeEntry::OfList(native) => list_native(world, native, call),
        NativeEntry::OfDict(native) => dict_native(world, native, call),
        NativeEntry::OfIterator(native) => Ok(iterator_native(world, native, call)?),
        NativeEntry::OfCallable(native) => callable_native(world, native, call),
        NativeEntry::OfDescriptor(native) => descriptor_native(world, native, call),
        NativeEntry::OfProperty(native) => property_native(world, native, call),
        NativeEntry::OfWrapper(native) => wrapper_native(world, native, call),
        NativeEntry::OfSuper(native) => super_native(world, native, call),
        NativeEntry::NewOf(class) => maker_native(world, class, call.args),
        NativeEntry::Getter(property) => getter_native(world, property, call),
        NativeEntry::Setter(property) => setter_native(world, property, call),
        NativeEntry::GetterOf(class, detail) => getter_of_native(world, class, detail, call),
        NativeEntry::SetterOf(class, detail) => setter_of_native(world, class, detail, call),
        _ => Err(Stop::raise(Cause::SelfType)),
    }
}
