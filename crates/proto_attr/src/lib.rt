//! Attributes, and what gives and takes them.
//!
//! At the root: the rows of attributes and special methods, each a small automaton: `begin` and `resume`.
#![tactic(auto, unfolding(crate::specs::Say::attribute_say))]

ghost use Rattle.proto_attr.specs.Below.{Some, IfOk, PlainWorld, Told, Ends, end, on_value, Held, ended_of, AllHold, of_attribute_task, of_ended, Leaves};
ghost use Rattle.std.specs.Prelude.{◌≡◌};
ghost use Rattle.proto_attr.specs.Say.{maybe, not_none, as_attribute};
ghost use Rattle.proto_attr.specs.Rows.{Begins, Resumes, of_attribute_kept};

pub mod accessors;
mod binding;
mod class_get;
pub mod find;
mod generic;
mod get_attr;
pub mod laws;
mod load;
mod named;
pub mod native_calls;
pub mod native_defs;
pub mod native_details;
pub mod native_objects;
mod object_set;
pub mod proto_descr;
mod set_attr;
mod special;

use class_world::{Fixed, World};
use py_node::task::{Args, Keywords};
use py_node::{
    Answer, AttributeTask, CallTask, OutOfMemory, PyMethod, PyObjectRef, PyStrInterned, Raised,
    Step, Task,
};

/// What a row of an attribute keeps while it waits for an answer.
#[derive(Drop)]
pub enum AttributeKept {
    /// The answer is passed on.
    Pass,
    /// Of a special method that reads an attribute: the object and the name.
    GetAttr(PyObjectRef, PyStrInterned),
    /// The answer is passed on as whether it is an object other than None.
    HasAttr,
    /// The answer is passed on as an object that there is.
    Maybe,
    /// The answer is passed on as a method that was loaded.
    Method,
    /// Of a special method that was bound: the arguments and keywords of the call that follows.
    AfterBind(Args, Keywords),
}

/// Begins a task.
pub fn begin(world: &mut World, task: AttributeTask) -> Result<Step<AttributeKept>, OutOfMemory>
    requires { AllHold world.old (of_attribute_task task) }
    ensures goes { IfOk result (λ step. Begins task world.old world.new step) }
    ensures safe { Leaves of_attribute_kept world.old world.new result }
{
    match task {
        AttributeTask::GetAttr(o, name) => get_attr::get_attr(world, o, name),
        AttributeTask::Generic(o, name) => Ok(generic::generic(world, o, name)),
        AttributeTask::GenericOpt(o, name, dict) => Ok(generic::generic_opt(world, o, name, dict)),
        AttributeTask::TypeGet(class, name) => Ok(class_get::type_get(world, class, name)),
        AttributeTask::LoadMethod(o, name) => Ok(load::load_method(world, o, name)),
        AttributeTask::Invoke(method, args, kw) => load::invoke(world, method, args, kw),
        AttributeTask::GenericSet(o, name, value) => {
            object_set::generic_set(world, o, name, value)
        }
        AttributeTask::SetAttr(o, name, value) => set_attr::set_attr(world, o, name, value),
        AttributeTask::TypeSet(class, name, value) => set_attr::type_set(world, class, name, value),
        AttributeTask::Special(o, name, args, kw) => { special::special(world, o, name, args, kw) }
        AttributeTask::Bind(m, o, class) => Ok(binding::bind(world, m, o, class)),
        AttributeTask::HasAttr(o, name) => Ok(get_attr::has_attr(o, name)),
    }
}

/// Goes on with a task that was given an answer.
pub fn resume(
    world: &mut World,
    kept: AttributeKept,
    answer: Result<Answer, Raised>,
) -> Result<Step<AttributeKept>, OutOfMemory>
    requires kept { AllHold world.old (of_attribute_kept kept) }
    requires answer { AllHold world.old (of_ended answer) }
    ensures goes { IfOk result (λ step. Resumes kept answer world.old world.new step) }
    ensures safe { Leaves of_attribute_kept world.old world.new result }
{
    match kept {
        AttributeKept::Pass => Ok(Step::End(answer)),
        AttributeKept::GetAttr(o, name) => get_attr::or_get_attr(world, o, name, answer),
        AttributeKept::HasAttr => Ok(Step::End(is_some(answer))),
        AttributeKept::Maybe => Ok(Step::End(maybe(answer))),
        AttributeKept::Method => Ok(Step::End(method(answer))),
        AttributeKept::AfterBind(args, kw) => match answer {
            Ok(Answer::Value(bound)) => {
                let task = Task::Call(CallTask::Call(bound, args, kw));
                Ok(Step::Ask(task, AttributeKept::Pass))
            }
            other => Ok(Step::End(other)),
        },
    }
}

// An object is answered as whether it isn't None.
fn is_some(answer: Result<Answer, Raised>) -> Result<Answer, Raised>
    ensures answer { (w : PlainWorld) (told : Told) →
        on_value w (ended_of answer) (λ v. end w (not_none v)) told ≡ Ends w (ended_of result) }
    ensures holds { (w : Held) → AllHold w (of_ended answer) → AllHold w (of_ended result) }
{
    match answer {
        Ok(Answer::Value(value)) => Ok(Answer::Truth(value != Fixed::None.node())),
        other => other,
    }
}

// An object is answered as one that there is.
fn maybe(answer: Result<Answer, Raised>) -> Result<Answer, Raised>
    ensures answer { (w : PlainWorld) (told : Told) →
        on_value w (ended_of answer) (λ v. end w (maybe (Some v))) told ≡ Ends w (ended_of result) }
    ensures holds { (w : Held) → AllHold w (of_ended answer) → AllHold w (of_ended result) }
{
    match answer {
        Ok(Answer::Value(value)) => Ok(Answer::Maybe(Some(value))),
        other => other,
    }
}

// An object is answered as a method that was loaded.
fn method(answer: Result<Answer, Raised>) -> Result<Answer, Raised>
    ensures answer { (w : PlainWorld) (told : Told) →
        on_value w (ended_of answer) (λ v. end w (as_attribute v)) told ≡ Ends w (ended_of result) }
    ensures holds { (w : Held) → AllHold w (of_ended answer) → AllHold w (of_ended result) }
{
    match answer {
        Ok(Answer::Value(value)) => Ok(Answer::Method(PyMethod::Attribute(value))),
        other => other,
    }
}
