//! The rows of descriptors, each a small automaton: `begin` and `resume`.
#![tactic(auto, unfolding(crate::specs::ProtoDescr::Say::descriptor_say))]

ghost use Rattle.proto_attr.specs.Below.{IfOk, PlainWorld, Told, Ends, done, end, on_done, Held, ended_of, AllHold, of_descriptor_task, of_ended, Leaves};
ghost use Rattle.std.specs.Prelude.{◌≡◌};
ghost use Rattle.proto_attr.specs.ProtoDescr.Rows.{Begins, Resumes, of_descriptor_kept};

mod descr_set;
mod descriptor;
mod member;
mod property;
mod super_get;
mod super_init;
mod super_start;
mod wrapped;

use class_world::World;
pub use descr_set::getset_set;
pub use descriptor::{bind_function, bind_native};
pub use member::{member_get, member_set};
pub use property::{property_get, property_set};
use py_node::{Answer, DescriptorTask, OutOfMemory, PyObjectRef, PyTypeRef, Raised, Step, caught};
use row_kit::give::as_object;
pub use super_start::{bind_super, unbound_super};
use wrapped::resume_class_method;
pub use wrapped::{bind_class_method, bind_getset, class_for, get_of, static_method_get};

/// What a row of a descriptor keeps while it waits for an answer.
#[derive(Drop)]
pub enum DescriptorKept {
    /// The answer is passed on, as an object.
    Pass,
    /// A class method asked for `__get__` of what it wraps: the class, and what it wraps.
    AfterGet(PyObjectRef, PyObjectRef),
    /// What was to be set is set, whatever the answer is.
    Done,
    /// A `super` is told where to start for an object to which it is to be bound: its class, and the object.
    Binding(PyTypeRef, PyObjectRef),
    /// The same where it is initialised: the `super` itself, its class, and the object.
    Starting(PyObjectRef, PyTypeRef, PyObjectRef),
    /// An object was asked for its class: the class that this must derive from.
    AfterClass(PyTypeRef),
}

/// Begins a task.
pub fn begin(world: &mut World, task: DescriptorTask) -> Result<Step<DescriptorKept>, OutOfMemory>
    requires { AllHold world.old (of_descriptor_task task) }
    ensures goes { IfOk result (λ step. Begins task world.old world.new step) }
    ensures safe { Leaves of_descriptor_kept world.old world.new result }
{
    match task {
        DescriptorTask::DescrGet(m, o, class) => descriptor::descr_get(world, m, o, class),
        DescriptorTask::DescrSet(m, o, value) => descr_set::descr_set(world, m, o, value),
        DescriptorTask::SuperGet(s, name) => Ok(super_get::super_get(world, s, name)),
        DescriptorTask::SuperInit(s, args) => super_init::super_init(world, s, args),
        DescriptorTask::SuperCheck(class, o) => Ok(super_start::super_check(world, class, o)),
    }
}

/// Goes on with a task that was given an answer.
pub fn resume(
    world: &mut World,
    kept: DescriptorKept,
    answer: Result<Answer, Raised>,
) -> Result<Step<DescriptorKept>, OutOfMemory>
    requires kept { AllHold world.old (of_descriptor_kept kept) }
    requires answer { AllHold world.old (of_ended answer) }
    ensures goes { IfOk result (λ step. Resumes kept answer world.old world.new step) }
    ensures safe { Leaves of_descriptor_kept world.old world.new result }
{
    match kept {
        DescriptorKept::Pass => {
            let ended = caught(as_object(world, answer))?;
            Ok(Step::End(ended))
        }
        DescriptorKept::AfterGet(class, func) => resume_class_method(world, class, func, answer),
        DescriptorKept::Done => Ok(Step::End(done(answer))),
        DescriptorKept::Binding(class, object) => {
            super_start::resume_binding(world, class, object, answer)
        }
        DescriptorKept::Starting(s, class, object) => {
            super_init::resume_init(world, s, class, object, answer)
        }
        DescriptorKept::AfterClass(class) => Ok(super_start::told_start(world, class, answer)),
    }
}

// What was to be set is set, unless there was a fault.
fn done(answer: Result<Answer, Raised>) -> Result<Answer, Raised>
    ensures answer { (w : PlainWorld) (told : Told) →
        on_done w (ended_of answer) (end w done) told ≡ Ends w (ended_of result) }
    ensures holds { (w : Held) → AllHold w (of_ended result) }
{
    match answer {
        Ok(_) => Ok(Answer::Done),
        Err(raised) => Err(raised),
    }
}
