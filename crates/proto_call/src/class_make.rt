//! The rows of the creation of classes, each a small automaton: `begin` and `resume`.
#![tactic(auto, unfolding(crate::specs::ClassMake::Say::class_job_say))]

ghost use Rattle.proto_call.specs.Below.{IfOk, AllHold, of_class_task, of_ended, Leaves};
ghost use Rattle.std.specs.Prelude.{◌≡◌};
ghost use Rattle.proto_call.specs.ClassMake.Rows.{Begins, Resumes, of_class_kept};

mod attributes;
mod bases;
mod creation;
mod hook;
pub mod laws;
mod make;
mod members;
mod namespace;
mod slots;
mod tell;
mod type_attributes;
mod type_natives;
mod type_new;

use crate::class_make::hook::{bound, called};
use crate::class_make::make::{make_class, no_class};
use crate::class_make::tell::{Telling, hook_bound, hook_called};
use crate::class_make::type_attributes::native_end;
use crate::class_make::type_new::type_native;
use class_world::World;
use py_node::task::Keywords;
use py_node::{Answer, ClassTask, OutOfMemory, PyObjectRef, PyStrInterned, Raised, Step};

/// What a row of the creation of classes keeps while it waits for an answer.
#[derive(Drop)]
pub enum ClassKept {
    /// The answer is passed on.
    Pass,
    /// The answer is that of a native: where there is no object, it is None.
    Native,
    /// A base that is no class is asked for others.
    NoClass,
    /// What is told, the hooks that are bound, and the name of a value: its `__set_name__` is being bound to it.
    Binding(Telling, Keywords, PyStrInterned),
    /// What is told, by the bound hooks with their names: one of them is being called.
    Calling(Telling),
    /// The class, and the keywords that it was made with: `__init_subclass__` is being bound to it.
    AfterBind(PyObjectRef, Keywords),
    /// The class: `__init_subclass__` is being called.
    AfterHook(PyObjectRef),
}

/// Begins a task.
pub fn begin(world: &mut World, task: ClassTask) -> Result<Step<ClassKept>, OutOfMemory>
    requires { AllHold world.old (of_class_task task) }
    ensures goes { IfOk result (λ step. Begins task world.old world.new step) }
    ensures safe { Leaves of_class_kept world.old world.new result }
{
    match task {
        ClassTask::MakeClass(class, args, kw) => make_class(world, class, args, kw),
        ClassTask::Type(native, args, kw) => type_native(world, native, args, kw),
    }
}

/// Goes on with a task that was given an answer.
pub fn resume(
    world: &mut World,
    kept: ClassKept,
    answer: Result<Answer, Raised>,
) -> Result<Step<ClassKept>, OutOfMemory>
    requires kept { AllHold world.old (of_class_kept kept) }
    requires answer { AllHold world.old (of_ended answer) }
    ensures goes { IfOk result (λ step. Resumes kept answer world.old world.new step) }
    ensures safe { Leaves of_class_kept world.old world.new result }
{
    match kept {
        ClassKept::Pass => Ok(Step::End(answer)),
        ClassKept::Native => Ok(native_end(world, answer)),
        ClassKept::NoClass => Ok(no_class(world, answer)),
        ClassKept::Binding(telling, hooks, name) => hook_bound(world, telling, hooks, name, answer),
        ClassKept::Calling(telling) => hook_called(world, telling, answer),
        ClassKept::AfterBind(class, kw) => bound(world, class, kw, answer),
        ClassKept::AfterHook(class) => {
            let step = called(world, class, answer);
            Ok(step)
        }
    }
}
