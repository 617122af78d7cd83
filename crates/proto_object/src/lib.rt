//! What all objects can do.
//!
//! At the root: the rows of what all objects can do, each a small automaton: `begin` and `resume`. They tell an
//! object's hash, its texts and the names of its attributes, and whether an object or a class counts as being of a
//! class.
#![tactic(auto, unfolding(crate::specs::Say::object_job_say))]

ghost use Rattle.proto_object.specs.Below.{IfOk, AllHold, of_object_task, of_ended, Leaves};
ghost use Rattle.std.specs.Prelude.{◌≡◌};
ghost use Rattle.proto_object.specs.Rows.{Begins, Resumes, of_object_kept};

mod asked;
mod classes;
mod names;
pub mod proto_items;
pub mod proto_iter;
pub mod proto_number;
mod subclasses;
mod texts;
pub mod turns;
pub mod ways;

use class_world::World;
use classes::{begin_inst, class_given, class_of_other, has_bases};
use names::begin_dir;
use py_node::protocol::ObjectTask;
use py_node::task::Args;
use py_node::{Answer, Cause, OutOfMemory, PyObjectRef, Raised, Step};
use subclasses::{begin_derived, begin_sub, first_has_bases, second_has_bases, with_own_bases};
use texts::{begin_format, begin_hash, begin_repr, begin_str, hash_given, text_given};
use turns::{Turn, next_turn};
use ways::{begin_is_instance, begin_is_subclass, check_given};

/// What a row of what all objects can do keeps while it waits for an answer.
#[derive(Drop)]
pub enum ObjectKept {
    /// The answer is passed on.
    Pass,
    /// Of a hash: the class's entry was asked.
    AfterHash,
    /// Of a text that shows an object: the class's entry was asked.
    AfterRepr,
    /// Of an object's text: `__str__` was asked.
    AfterStr,
    /// Of a text by a specification: it was asked.
    AfterFormat,
    /// Of a test by a class: what the class's class says was called.
    AfterCheck,
    /// Of a test by several objects: one was asked, and those from a place on are left.
    Each(Turn, Args, usize),
    /// Of an instance of a class: what the object gives as its class was asked. The object, and the class.
    AfterClass(PyObjectRef, PyObjectRef),
    /// Of an instance of what is no class: whether that has bases was asked. The object, and what is no class.
    AfterBases(PyObjectRef, PyObjectRef),
    /// Of the same: what the object gives as its class was asked. What is no class.
    AfterOther(PyObjectRef),
    /// Of a subclass, where one of the two is no class: whether the first has bases was asked. The two.
    AfterFirst(PyObjectRef, PyObjectRef),
    /// Of the same: whether the second has bases was asked. The two.
    AfterSecond(PyObjectRef, PyObjectRef),
    /// Of what derives from an object by its bases: these were asked. What it is to derive from.
    AfterOwn(PyObjectRef),
}

/// Begins a task.
pub fn begin(world: &mut World, task: ObjectTask) -> Result<Step<ObjectKept>, OutOfMemory>
    requires { AllHold world.old (of_object_task task) }
    ensures goes { IfOk result (λ step. Begins task world.old world.new step) }
    ensures safe { Leaves of_object_kept world.old world.new result }
{
    match task {
        ObjectTask::Hash(o) => begin_hash(world, o),
        ObjectTask::Repr(o) => begin_repr(world, o),
        ObjectTask::Str(o) => Ok(begin_str(world, o)),
        ObjectTask::Format(o, spec) => begin_format(world, o, spec),
        ObjectTask::Dir(o) => begin_dir(world, o),
        ObjectTask::IsInstance(o, c) => begin_is_instance(world, o, c),
        ObjectTask::Inst(o, c) => Ok(begin_inst(world, o, c)),
        ObjectTask::IsSubclass(d, c) => begin_is_subclass(world, d, c),
        ObjectTask::Sub(d, c) => Ok(begin_sub(world, d, c)),
        ObjectTask::AbsSub(d, c) => Ok(begin_derived(world, d, c)),
    }
}

/// Goes on with a task that was given an answer.
pub fn resume(
    world: &mut World,
    kept: ObjectKept,
    answer: Result<Answer, Raised>,
) -> Result<Step<ObjectKept>, OutOfMemory>
    requires kept { AllHold world.old (of_object_kept kept) }
    requires answer { AllHold world.old (of_ended answer) }
    ensures goes { IfOk result (λ step. Resumes kept answer world.old world.new step) }
    ensures safe { Leaves of_object_kept world.old world.new result }
{
    match kept {
        ObjectKept::Pass => Ok(Step::End(answer)),
        ObjectKept::AfterHash => Ok(Step::End(hash_given(world, answer))),
        ObjectKept::AfterRepr => Ok(Step::End(text_given(world, Cause::ReprType, answer))),
        ObjectKept::AfterStr => Ok(Step::End(text_given(world, Cause::StrType, answer))),
        ObjectKept::AfterFormat => Ok(Step::End(text_given(world, Cause::FormatType, answer))),
        ObjectKept::AfterCheck => Ok(check_given(world, answer)),
        ObjectKept::Each(turn, items, next) => Ok(next_turn(world, turn, items, next, answer)),
        ObjectKept::AfterClass(o, c) => Ok(class_given(world, o, c, answer)),
        ObjectKept::AfterBases(o, c) => Ok(has_bases(world, o, c, answer)),
        ObjectKept::AfterOther(c) => Ok(class_of_other(world, c, answer)),
        ObjectKept::AfterFirst(d, c) => Ok(first_has_bases(world, d, c, answer)),
        ObjectKept::AfterSecond(d, c) => Ok(second_has_bases(world, d, c, answer)),
        ObjectKept::AfterOwn(c) => with_own_bases(world, c, answer),
    }
}
