//! The hook that tells the classes past a new one of it.

ghost use Rattle.proto_call.specs.Below.{filter, not, Ok, IfOk, IfSome, is_same_name, ref, of_ended, of_step, Leaves, Reading, bindings, plain, IsNode, IsClass, Holds, AllHold, of_binding, of_each};
ghost use Rattle.std.specs.Prelude.{◌≡◌};
ghost use Rattle.py_node.specs.declared.task.Answer.TheVariants as answer;
ghost use Rattle.proto_call.specs.ClassMake.Say.{init_subclass};
ghost use Rattle.proto_call.specs.ClassMake.Rows.{Goes, Resumes, of_class_kept};

use crate::class_make::ClassKept;
use class_world::World;
use py_node::task::Keywords;
use py_node::{
    Answer, AttributeTask, CallTask, Known, OutOfMemory, PyObjectRef, PyStrInterned, PyTypeRef,
    Raised, Step, Task,
};
use std::alloc::Global;

/// The classes past a new one are told of it, if any has a hook for that. The hook is bound first.
pub(crate) fn init_subclass(
    world: &mut World,
    class: PyTypeRef,
    kw: Keywords,
) -> Result<Step<ClassKept>, OutOfMemory>
    requires class { Holds world.old (IsClass class.0) }
    requires kw { AllHold world.old (of_each of_binding kw.items) }
    ensures goes { IfOk result (λ step.
        Goes (λ t u. init_subclass u (ref class.0) (bindings t kw.items)) world.old world.new step) }
    ensures safe { Leaves of_class_kept world.old world.new result }
{
    let method = world.class_attr_past(class, world.known(Known::InitSubclass));
    let class = world.class_node(class);
    match method {
        None => Ok(Step::End(Ok(Answer::Value(class)))),
        Some(method) => Ok(Step::Ask(
            Task::Attribute(AttributeTask::Bind(method, None, class)),
            ClassKept::AfterBind(class, kw),
        )),
    }
}

/// The hook is bound, and is called with the keywords of the class.
pub(crate) fn bound(
    world: &mut World,
    class: PyObjectRef,
    kw: Keywords,
    answer: Result<Answer, Raised>,
) -> Result<Step<ClassKept>, OutOfMemory>
    requires class { Holds world.old (IsNode class) }
    requires kw { AllHold world.old (of_each of_binding kw.items) }
    requires answer { AllHold world.old (of_ended answer) }
    ensures goes { IfOk result (λ step. Resumes (ClassKept.AfterBind class kw) answer world.old world.new step) }
    ensures safe { Leaves of_class_kept world.old world.new result }
{
    match answer {
        Ok(Answer::Value(method)) => call_hook(world, class, kw, method),
        other => Ok(Step::End(other)),
    }
}

// Calls the bound hook.
fn call_hook(
    world: &World,
    class: PyObjectRef,
    kw: Keywords,
    method: PyObjectRef,
) -> Result<Step<ClassKept>, OutOfMemory>
    requires class { Holds world.now (IsNode class) }
    requires kw { AllHold world.now (of_each of_binding kw.items) }
    requires method { Holds world.now (IsNode method) }
    ensures goes { IfOk result (λ step.
        Resumes (ClassKept.AfterBind class kw) (Ok (answer.Value method)) world.now world.now step) }
    ensures safe { Leaves of_class_kept world.now world.now result }
{
    let alloc = world.alloc();
    let metaclass = world.known(Known::Metaclass);
    let kw = without(alloc, metaclass, &kw)?;
    Ok(Step::Ask(
        Task::Call(CallTask::Call(method, Vec::new(alloc), kw)),
        ClassKept::AfterHook(class),
    ))
}

// The keywords without one.
fn without(
    alloc: Global,
    name: PyStrInterned,
    kw: &[(PyStrInterned, PyObjectRef)],
) -> Result<Keywords, OutOfMemory>
    ensures { IfOk result (λ v. v.items ≡ filter (λ k. not (is_same_name k.0 name)) kw.now) }
{
    let mut rest = Vec::new(alloc);
    for (key, value) in kw {
        if key.0 != name.0 {
            rest.push((*key, *value))?;
        }
    }
    Ok(rest)
}

/// The hook was called, and the class is the answer.
pub(crate) fn called(
    world: &World,
    class: PyObjectRef,
    answer: Result<Answer, Raised>,
) -> Step<ClassKept>
    requires class { Holds world.now (IsNode class) }
    requires answer { AllHold world.now (of_ended answer) }
    ensures goes { Resumes (ClassKept.AfterHook class) answer world.now world.now result }
    ensures safe { AllHold world.now (of_step of_class_kept result) }
{
    let _class = world.class_of(class);
    match answer {
        Err(raised) => Step::End(Err(raised)),
        Ok(_given) => Step::End(Ok(Answer::Value(class))),
    }
}
