//! Instances of a class in the plain way: by the object's class, or else by what it gives as its class.
#![tactic(auto, unfolding(crate::specs::Say::object_job_say))]

ghost use Rattle.std.specs.Prelude.{◌≡◌};
ghost use Rattle.py_node.specs.declared.protocol.ObjectTask.TheVariants as object;
ghost use Rattle.proto_object.specs.Below.{class_number, datum_at, of_ended, of_step, Reading, ended_of, plain, AllHold, Holds, IsNode};
ghost use Rattle.proto_object.specs.Classes.{other_class, without_bases};
ghost use Rattle.proto_object.specs.Rows.{Begins, Resumes, of_object_kept};

use crate::ObjectKept;
use crate::asked::{attribute, says};
use crate::ways::is_of;
use class_world::{Fixed, World};
use py_node::protocol::ObjectTask;
use py_node::{Answer, Cause, Kind, Known, PyObjectRef, Raised, Step, Task};

/// Whether an object is an instance of a class, which is not asked.
pub(crate) fn begin_inst(world: &World, o: PyObjectRef, c: PyObjectRef) -> Step<ObjectKept>
    requires o { Holds world.now (IsNode o) }
    requires c { Holds world.now (IsNode c) }
    ensures goes { Begins (object.Inst o c) world.now world.now result }
    ensures safe { AllHold world.now (of_step of_object_kept result) }
{
    match world.class_number(c) {
        None => {
            let bases = attribute(world, c, Known::Bases);
            Step::Ask(bases, ObjectKept::AfterBases(o, c))
        }
        Some(class) => {
            if world.is_instance(o, class) {
                says(true)
            } else {
                let given = attribute(world, o, Known::Class);
                Step::Ask(given, ObjectKept::AfterClass(o, c))
            }
        }
    }
}

/// What an object gives as its class counts, where that is another class than its own, and derives from the class.
pub(crate) fn class_given(
    world: &World,
    o: PyObjectRef,
    c: PyObjectRef,
    answer: Result<Answer, Raised>,
) -> Step<ObjectKept>
    requires o { Holds world.now (IsNode o) }
    requires c { Holds world.now (IsNode c) }
    requires answer { AllHold world.now (of_ended answer) }
    ensures goes { Resumes (ObjectKept.AfterClass o c) answer world.now world.now result }
    ensures safe { AllHold world.now (of_step of_object_kept result) }
{
    match answer {
        Ok(Answer::Value(k)) => says(other_class(world, o, k, c)),
        other => Step::End(other),
    }
}

// Whether this is another class than the object's, and derives from the class.
fn other_class(world: &World, o: PyObjectRef, k: PyObjectRef, c: PyObjectRef) -> bool
    requires o { Holds world.now (IsNode o) }
    requires k { Holds world.now (IsNode k) }
    requires c { Holds world.now (IsNode c) }
    ensures { (t : Reading) → other_class (plain t world.now) o (class_number (datum_at (plain t world.now) k))
        (class_number (datum_at (plain t world.now) c)) ≡ result }
{
    match (world.class_number(k), world.class_number(c)) {
        (Some(k), Some(c)) => !is_of(world, o, k.0) && world.is_sub(k, c),
        _ => false,
    }
}

/// How a row ends that was not given bases: what stands for a class must have some.
pub(crate) fn without_bases(answer: Result<Answer, Raised>) -> Result<Answer, Raised>
    ensures ended { ended_of result ≡ without_bases (ended_of answer) }
    ensures holds { (w : World) → AllHold w (of_ended answer) → AllHold w (of_ended result) }
{
    match answer {
        Err(raised) => {
            if raised.kind == Kind::AttributeError {
                Err(Raised::new(Cause::ClassArg))
            } else {
                Err(raised)
            }
        }
        other => other,
    }
}

/// What is no class has bases: what the object gives as its class is asked.
pub(crate) fn has_bases(
    world: &World,
    o: PyObjectRef,
    c: PyObjectRef,
    answer: Result<Answer, Raised>,
) -> Step<ObjectKept>
    requires o { Holds world.now (IsNode o) }
    requires c { Holds world.now (IsNode c) }
    requires answer { AllHold world.now (of_ended answer) }
    ensures goes { Resumes (ObjectKept.AfterBases o c) answer world.now world.now result }
    ensures safe { AllHold world.now (of_step of_object_kept result) }
{
    match answer {
        Ok(Answer::Value(_)) => {
            let given = attribute(world, o, Known::Class);
            Step::Ask(given, ObjectKept::AfterOther(c))
        }
        other => Step::End(without_bases(other)),
    }
}

/// What the object gives as its class must derive from what is no class, by their bases. None doesn't.
pub(crate) fn class_of_other(
    world: &World,
    c: PyObjectRef,
    answer: Result<Answer, Raised>,
) -> Step<ObjectKept>
    requires c { Holds world.now (IsNode c) }
    requires answer { AllHold world.now (of_ended answer) }
    ensures goes { Resumes (ObjectKept.AfterOther c) answer world.now world.now result }
    ensures safe { AllHold world.now (of_step of_object_kept result) }
{
    let _class = world.class_of(c);
    match answer {
        Ok(Answer::Value(k)) => {
            if k.0 == Fixed::None.node().0 {
                says(false)
            } else {
                let task = Task::Object(ObjectTask::AbsSub(k, c));
                Step::Ask(task, ObjectKept::Pass)
            }
        }
        other => Step::End(other),
    }
}
