//! Subclasses in the plain way: by the classes' linearisations, or else by what objects give as their bases.
#![tactic(auto, unfolding(crate::specs::Say::object_job_say))]

ghost use Rattle.proto_object.specs.Below.{IfOk, of_ended, of_step, Leaves, AllHold, Holds, IsNode};
ghost use Rattle.std.specs.Prelude.{◌≡◌};
ghost use Rattle.py_node.specs.declared.protocol.ObjectTask.TheVariants as object;
ghost use Rattle.proto_object.specs.Rows.{Begins, Resumes, of_object_kept};

use crate::ObjectKept;
use crate::asked::{attribute, says};
use crate::classes::without_bases;
use crate::turns::{Turn, take_turn};
use class_world::World;
use class_world::args::copy_args;
use py_node::protocol::ObjectTask;
use py_node::{Answer, Cause, Known, OutOfMemory, Payload, PyObjectRef, Raised, Step, Task};

/// Whether a class derives from another, which is not asked. Where one of them is no class, both must have bases.
pub(crate) fn begin_sub(world: &World, d: PyObjectRef, c: PyObjectRef) -> Step<ObjectKept>
    requires d { Holds world.now (IsNode d) }
    requires c { Holds world.now (IsNode c) }
    ensures goes { Begins (object.Sub d c) world.now world.now result }
    ensures safe { AllHold world.now (of_step of_object_kept result) }
{
    match (world.class_number(d), world.class_number(c)) {
        (Some(class), Some(other)) => says(world.is_sub(class, other)),
        _ => {
            let bases = attribute(world, d, Known::Bases);
            Step::Ask(bases, ObjectKept::AfterFirst(d, c))
        }
    }
}

/// The first has bases: those of the second are asked.
pub(crate) fn first_has_bases(
    world: &World,
    d: PyObjectRef,
    c: PyObjectRef,
    answer: Result<Answer, Raised>,
) -> Step<ObjectKept>
    requires d { Holds world.now (IsNode d) }
    requires c { Holds world.now (IsNode c) }
    requires answer { AllHold world.now (of_ended answer) }
    ensures goes { Resumes (ObjectKept.AfterFirst d c) answer world.now world.now result }
    ensures safe { AllHold world.now (of_step of_object_kept result) }
{
    match answer {
        Ok(Answer::Value(_)) => {
            let bases = attribute(world, c, Known::Bases);
            Step::Ask(bases, ObjectKept::AfterSecond(d, c))
        }
        other => Step::End(without_bases(other)),
    }
}

/// Both have bases: by these the first must derive from the second.
pub(crate) fn second_has_bases(
    world: &World,
    d: PyObjectRef,
    c: PyObjectRef,
    answer: Result<Answer, Raised>,
) -> Step<ObjectKept>
    requires d { Holds world.now (IsNode d) }
    requires c { Holds world.now (IsNode c) }
    requires answer { AllHold world.now (of_ended answer) }
    ensures goes { Resumes (ObjectKept.AfterSecond d c) answer world.now world.now result }
    ensures safe { AllHold world.now (of_step of_object_kept result) }
{
    let _class = world.class_of(d);
    match answer {
        Ok(Answer::Value(_)) => {
            let task = Task::Object(ObjectTask::AbsSub(d, c));
            Step::Ask(task, ObjectKept::Pass)
        }
        other => Step::End(without_bases(other)),
    }
}

/// Whether an object derives from another by its bases: it is the same, or one of its bases does.
pub(crate) fn begin_derived(world: &World, d: PyObjectRef, c: PyObjectRef) -> Step<ObjectKept>
    requires d { Holds world.now (IsNode d) }
    requires c { Holds world.now (IsNode c) }
    ensures goes { Begins (object.AbsSub d c) world.now world.now result }
    ensures safe { AllHold world.now (of_step of_object_kept result) }
{
    if d.0 == c.0 {
        says(true)
    } else {
        let bases = attribute(world, d, Known::Bases);
        Step::Ask(bases, ObjectKept::AfterOwn(c))
    }
}

/// The bases must be a tuple, which is read once: each is asked in turn.
pub(crate) fn with_own_bases(
    world: &World,
    c: PyObjectRef,
    answer: Result<Answer, Raised>,
) -> Result<Step<ObjectKept>, OutOfMemory>
    requires c { Holds world.now (IsNode c) }
    requires answer { AllHold world.now (of_ended answer) }
    ensures goes { IfOk result (λ step. Resumes (ObjectKept.AfterOwn c) answer world.now world.now step) }
    ensures safe { Leaves of_object_kept world.now world.now result }
{
    match answer {
        Ok(Answer::Value(bases)) => match world.payload(bases) {
            Payload::Tuple(items) => {
                let items = copy_args(world.alloc(), items)?;
                Ok(take_turn(world, Turn::Derives(c), items, 0))
            }
            _ => Ok(Step::raise(Cause::BasesShape)),
        },
        other => Ok(Step::End(other)),
    }
}
