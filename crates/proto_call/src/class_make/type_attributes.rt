//! The natives of `type` that read and set attributes.
#![tactic(auto, using(class_world::proofs::Items::item_holds), unfolding(crate::specs::ClassMake::Say::class_job_say))]

ghost use Rattle.proto_call.specs.Below.{ℕ, Err, IfErr, IfOk, raised, Said, Ends, of_args, of_ended, of_step, Leaves, Reading, bindings, plain, AreNodes, IsClass, Holds, AllHold};
ghost use Rattle.std.specs.Prelude.{◌≡◌};
ghost use Rattle.proto_call.specs.ClassMake.Say.{with_self, type_get_attribute, type_set_attr, type_del_attr};
ghost use Rattle.proto_call.specs.ClassMake.Rows.{Resumes, Types, of_class_kept};

use crate::class_make::ClassKept;
use class_world::takes::{three, two};
use class_world::{Fixed, World};
use py_node::task::{Args, Keywords};
use py_node::{
    Answer, AttributeTask, Cause, FuncArgs, OutOfMemory, PyObjectRef, PySetterValue, PyTypeRef,
    Raised, Step, Task, caught,
};

/// A class's attribute by its name, as classes read it.
pub(crate) fn type_get_attribute(
    world: &mut World,
    args: Args,
    kw: Keywords,
) -> Result<Step<ClassKept>, OutOfMemory>
    requires { AllHold world.old (of_args args.items kw.items) }
    ensures goes { IfOk result (λ step. Types (λ t u. type_get_attribute u args.items (bindings t kw.items))
        world.old world.new step) }
    ensures safe { Leaves of_class_kept world.old world.new result }
{
    let class = match class_of_self(world, &args) {
        Err(raised) => return Ok(Step::End(Err(raised))),
        Ok(class) => class,
    };
    match two(FuncArgs {
        args: &args,
        kw: &kw,
    }) {
        Err(raised) => Ok(Step::End(Err(raised))),
        Ok((_, name)) => match caught(world.name_in(name))? {
            Err(raised) => Ok(Step::End(Err(raised))),
            Ok(name) => Ok(asked(AttributeTask::TypeGet(class, name))),
        },
    }
}

/// A class's attribute by its name, as classes set it.
pub(crate) fn type_set_attr(
    world: &mut World,
    args: Args,
    kw: Keywords,
) -> Result<Step<ClassKept>, OutOfMemory>
    requires { AllHold world.old (of_args args.items kw.items) }
    ensures goes { IfOk result (λ step. Types (λ t u. type_set_attr u args.items (bindings t kw.items))
        world.old world.new step) }
    ensures safe { Leaves of_class_kept world.old world.new result }
{
    let class = match class_of_self(world, &args) {
        Err(raised) => return Ok(Step::End(Err(raised))),
        Ok(class) => class,
    };
    match three(FuncArgs {
        args: &args,
        kw: &kw,
    }) {
        Err(raised) => Ok(Step::End(Err(raised))),
        Ok((_, name, value)) => match caught(world.name_in(name))? {
            Err(raised) => Ok(Step::End(Err(raised))),
            Ok(name) => {
                let value = PySetterValue::Assign(value);
                Ok(asked(AttributeTask::TypeSet(class, name, value)))
            }
        },
    }
}

/// A class's attribute by its name, as classes take it out.
pub(crate) fn type_del_attr(
    world: &mut World,
    args: Args,
    kw: Keywords,
) -> Result<Step<ClassKept>, OutOfMemory>
    requires { AllHold world.old (of_args args.items kw.items) }
    ensures goes { IfOk result (λ step. Types (λ t u. type_del_attr u args.items (bindings t kw.items))
        world.old world.new step) }
    ensures safe { Leaves of_class_kept world.old world.new result }
{
    let class = match class_of_self(world, &args) {
        Err(raised) => return Ok(Step::End(Err(raised))),
        Ok(class) => class,
    };
    match two(FuncArgs {
        args: &args,
        kw: &kw,
    }) {
        Err(raised) => Ok(Step::End(Err(raised))),
        Ok((_, name)) => match caught(world.name_in(name))? {
            Err(raised) => Ok(Step::End(Err(raised))),
            Ok(name) => {
                let task = AttributeTask::TypeSet(class, name, PySetterValue::Delete);
                Ok(asked(task))
            }
        },
    }
}

// The class that the first argument is, or why it is refused.
fn class_of_self(world: &World, args: &[PyObjectRef]) -> Result<PyTypeRef, Raised>
    requires { Holds world.now (AreNodes args.now) }
    ensures given { IfOk result (λ c. (t : Reading) (go : ℕ → Said) →
        with_self (plain t world.now) args.now go ≡ go c.0) }
    ensures refused { IfErr result (λ x. (t : Reading) (go : ℕ → Said) →
        with_self (plain t world.now) args.now go ≡ Ends (plain t world.now) (Err x)) }
    ensures class { IfOk result (λ c. Holds world.now (IsClass c.0)) }
{
    match args {
        [] => Err(type_error(Cause::ArgCount)),
        [o, ..] => match world.class_number(*o) {
            None => Err(type_error(Cause::SelfType)),
            Some(class) => Ok(class),
        },
    }
}

// A fault of the wrong type.
fn type_error(cause: Cause) -> Raised
    ensures { result ≡ raised cause }
{
    Raised::new(cause)
}

// A task is asked. Where it gives no object, the native answers None.
fn asked(task: AttributeTask) -> Step<ClassKept>
    ensures { result ≡ Step.Ask (Task.Attribute task) ClassKept.Native }
{
    Step::Ask(Task::Attribute(task), ClassKept::Native)
}

/// What a native answers that asked a task.
pub(crate) fn native_end(world: &World, answer: Result<Answer, Raised>) -> Step<ClassKept>
    requires { AllHold world.now (of_ended answer) }
    ensures goes { Resumes ClassKept.Native answer world.now world.now result }
    ensures safe { AllHold world.now (of_step of_class_kept result) }
{
    match answer {
        Ok(Answer::Done) => Step::End(Ok(Answer::Value(world.fixed(Fixed::None)))),
        other => Step::End(other),
    }
}
