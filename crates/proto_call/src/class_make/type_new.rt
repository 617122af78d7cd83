//! The natives of `type`.

ghost use Rattle.proto_call.specs.Below.{option_map, IfOk, IsTrue, nearest_built_in, TypeType, of_class_task, of_args, of_step, Leaves, Reading, bindings, plain, IsClass, IsOf, Holds, AllHold, of_class_ref, of_option, the_type};
ghost use Rattle.std.specs.Prelude.{◌≡◌};
ghost use Rattle.proto_call.specs.ClassMake.Say.{called_with, is_class, type_call, type_new, type_new_of};
ghost use Rattle.proto_call.specs.ClassMake.Rows.{Begins, Types, of_class_kept};
ghost use Rattle.py_node.specs.declared.task.ClassTask.TheVariants as class_task;

use crate::class_make::ClassKept;
use crate::class_make::type_attributes::{type_del_attr, type_get_attribute, type_set_attr};
use class_world::World;
use class_world::args::copy_args;
use py_node::task::{Args, Keywords};
use py_node::{
    BuiltIn, CallTask, Cause, ClassTask, FuncArgs, OutOfMemory, PyTypeRef, Step, Task, TypeNative,
    caught,
};

/// A native of `type`.
pub(crate) fn type_native(
    world: &mut World,
    native: TypeNative,
    args: Args,
    kw: Keywords,
) -> Result<Step<ClassKept>, OutOfMemory>
    requires { AllHold world.old (of_class_task (class_task.Type native args kw)) }
    ensures goes { IfOk result (λ step. Begins (class_task.Type native args kw) world.old world.new step) }
    ensures safe { Leaves of_class_kept world.old world.new result }
{
    match native {
        TypeNative::New => type_new(world, args, kw),
        TypeNative::GetAttribute => type_get_attribute(world, args, kw),
        TypeNative::SetAttr => type_set_attr(world, args, kw),
        TypeNative::DelAttr => type_del_attr(world, args, kw),
        TypeNative::Call => type_call(world, args, kw),
        native => {
            let answer = caught(crate::class_make::type_natives::type_native(
                world,
                native,
                FuncArgs {
                    args: &args,
                    kw: &kw,
                },
            ))?;
            Ok(Step::End(answer))
        }
    }
}

// The native that makes the objects of `type`: its first argument is the metaclass.
fn type_new(world: &mut World, args: Args, kw: Keywords) -> Result<Step<ClassKept>, OutOfMemory>
    requires { AllHold world.old (of_args args.items kw.items) }
    ensures goes { IfOk result (λ step.
        Types (λ t u. type_new u args.items (bindings t kw.items)) world.old world.new step) }
    ensures safe { Leaves of_class_kept world.old world.new result }
{
    let alloc = world.alloc();
    match args.as_slice() {
        [] => Ok(Step::raise(Cause::ArgCount)),
        [class, rest @ ..] => {
            let class = world.class_number(*class);
            let rest = copy_args(alloc, rest)?;
            let step = type_new_of(world, class, rest, kw);
            Ok(step)
        }
    }
}

// The same, with what the first argument stands for.
fn type_new_of(world: &World, class: Option<PyTypeRef>, args: Args, kw: Keywords) -> Step<ClassKept>
    requires class { AllHold world.now (of_option of_class_ref class) }
    requires rest { AllHold world.now (of_args args.items kw.items) }
    ensures goes { Types (λ t u.
        type_new_of u (option_map (λ c. c.0) class) args.items (bindings t kw.items)) world.now world.now result }
    ensures safe { AllHold world.now (of_step of_class_kept result) }
{
    match class {
        None => Step::raise(Cause::SelfType),
        Some(class) => {
            if !makes_classes(world, class) {
                return Step::raise(Cause::UnsafeNew);
            }
            Step::Ask(
                Task::Class(ClassTask::MakeClass(class, args, kw)),
                ClassKept::Native,
            )
        }
    }
}

// A class is called by name.
fn type_call(world: &mut World, args: Args, kw: Keywords) -> Result<Step<ClassKept>, OutOfMemory>
    requires { AllHold world.old (of_args args.items kw.items) }
    ensures goes { IfOk result (λ step.
        Types (λ t u. type_call u args.items (bindings t kw.items)) world.old world.new step) }
    ensures safe { Leaves of_class_kept world.old world.new result }
{
    let alloc = world.alloc();
    match args.as_slice() {
        [] => Ok(Step::raise(Cause::ArgCount)),
        [class, rest @ ..] => {
            let class = world.class_number(*class);
            let rest = copy_args(alloc, rest)?;
            let step = called_with(world, class, rest, kw);
            Ok(step)
        }
    }
}

// The same, with what the first argument stands for.
fn called_with(world: &World, class: Option<PyTypeRef>, args: Args, kw: Keywords) -> Step<ClassKept>
    requires class { AllHold world.now (of_option of_class_ref class) }
    requires rest { AllHold world.now (of_args args.items kw.items) }
    ensures goes { Types (λ t u.
        called_with u (option_map (λ c. c.0) class) args.items (bindings t kw.items)) world.now world.now result }
    ensures safe { AllHold world.now (of_step of_class_kept result) }
{
    match class {
        None => Step::raise(Cause::SelfType),
        Some(class) => {
            let task = CallTask::TypeCall(class, args, kw);
            Step::Ask(Task::Call(task), ClassKept::Native)
        }
    }
}

// Whether the objects of a class are classes.
#[tactic(auto, unfolding(py_node::specs::BuiltIns::place_of))]
fn makes_classes(world: &World, class: PyTypeRef) -> bool
    requires { Holds world.now (IsClass class.0) }
    ensures makes { (t : Reading) → is_class (nearest_built_in (plain t world.now).classes class.0) the_type ≡ result }
    ensures of { IsTrue result → Holds world.now (IsOf class.0 TypeType) }
{
    let of_type = world.built_in(BuiltIn::TypeType);
    is_place(world.nearest_built_in(class), of_type)
}

// Whether there is a class, and it is this one.
fn is_place(class: Option<PyTypeRef>, other: PyTypeRef) -> bool
    ensures { result ≡ is_class (option_map (λ c. c.0) class) other.0 }
{
    match class {
        None => false,
        Some(class) => class.0 == other.0,
    }
}
