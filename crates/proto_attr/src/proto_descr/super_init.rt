//! How `super` is initialised.
#![tactic(auto, using(class_world::proofs::Items::item_holds), unfolding(crate::specs::ProtoDescr::Say::descriptor_say))]

ghost use Rattle.proto_attr.specs.Below.{[], Err, IfOk, Ok, running, of_descriptor_task, of_ended, Leaves, Reading, plain, AllHold, AreNodes, Grows, Holds, IsNode, of_payload};
ghost use Rattle.py_node.specs.Stops.{Ended};
ghost use Rattle.std.specs.Prelude.{◌≡◌};
ghost use Rattle.py_node.specs.declared.payload.Payload.TheVariants as payload;
ghost use Rattle.py_node.specs.declared.task.DescriptorTask.TheVariants as descriptor;
ghost use Rattle.proto_attr.specs.ProtoDescr.Supers.{init_with, parts_of_body, super_parts, with_super};
ghost use Rattle.proto_attr.specs.ProtoDescr.Rows.{Begins, EndsSaid, Initialises, Resumes, bound_to, of_descriptor_kept, of_parts, parts_of};

use crate::proto_descr::DescriptorKept;
use crate::proto_descr::super_start::Unbound;
use class_world::{Fixed, World};
use py_node::task::Args;
use py_node::{
    Answer, Boxed, Cause, DescriptorTask, OutOfMemory, Payload, PyObjectRef, PySuper, PyTypeRef,
    Raised, Step, Stop, Task, caught,
};

// A `super` is initialised with a class and an object, which it may find by itself.
pub(crate) fn super_init(
    world: &mut World,
    s: PyObjectRef,
    args: Args,
) -> Result<Step<DescriptorKept>, OutOfMemory>
    requires { AllHold world.old (of_descriptor_task (descriptor.SuperInit s args)) }
    ensures goes { IfOk result (λ step. Begins (descriptor.SuperInit s args) world.old world.new step) }
    ensures safe { Leaves of_descriptor_kept world.old world.new result }
{
    match parts(world, args.as_slice()) {
        Err(raised) => Ok(Step::End(Err(raised))),
        Ok(parts) => {
            let step = init_with(world, s, parts)?;
            Ok(step)
        }
    }
}

// The class, and the object, or else None: those that are given, or those of the body that runs.
fn parts(world: &World, args: &[PyObjectRef]) -> Result<Unbound, Raised>
    requires { Holds world.now (AreNodes args.now) }
    ensures parts { (t : Reading) → super_parts (plain t world.now) args.now ≡ parts_of result }
    ensures holds { IfOk result (λ p. AllHold world.now (of_parts p)) }
{
    match args {
        [] => parts_of_body(world),
        [class, ..] => match world.class_number(*class) {
            None => Err(Raised::new(Cause::SuperArg)),
            Some(class) => match args {
                [_] => Ok((class, world.fixed(Fixed::None))),
                [_, object] => Ok((class, *object)),
                _ => Err(Raised::new(Cause::ArgCount)),
            },
        },
    }
}

// The class that defines the function whose body runs, and the present value of its first parameter.
fn parts_of_body(world: &World) -> Result<Unbound, Raised>
    ensures parts { (t : Reading) →
        parts_of_body (plain t world.now) (running (plain t world.now).scopes) ≡ parts_of result }
    ensures holds { IfOk result (λ p. AllHold world.now (of_parts p)) }
{
    let Some(func) = world.running() else {
        return Err(Raised::new(Cause::NoBody));
    };
    match world.payload(func) {
        Payload::Function(function) => match function.params.as_slice() {
            [] => Err(Raised::new(Cause::NoArguments)),
            [first, ..] => match function.class {
                None => Err(Raised::new(Cause::SuperNoClass)),
                Some(class) => match world.local(*first) {
                    None => Err(Raised::new(Cause::NoArguments)),
                    Some(object) => Ok((class, object)),
                },
            },
        },
        _ => Err(Raised::new(Cause::NoBody)),
    }
}

// With an object other than None, to which it is bound, it is told where to start.
fn init_with(
    world: &mut World,
    s: PyObjectRef,
    parts: Unbound,
) -> Result<Step<DescriptorKept>, OutOfMemory>
    requires object { Holds world.old (IsNode s) }
    requires parts { AllHold world.old (of_parts parts) }
    ensures goes { IfOk result (λ step. Initialises s (λ w. init_with w s parts.0.0 parts.1)
        world.old world.new step) }
    ensures safe { Leaves of_descriptor_kept world.old world.new result }
{
    let (class, object) = parts;
    if object.0 == Fixed::None.node().0 {
        let parts = PySuper {
            typ: class,
            obj: None,
        };
        let ended = caught(set_super(world, s, parts))?;
        return Ok(Step::End(ended));
    }
    let task = DescriptorTask::SuperCheck(class, object);
    Ok(Step::Ask(
        Task::Descriptor(task),
        DescriptorKept::Starting(s, class, object),
    ))
}

// It is set to this, if it is a `super`.
fn set_super(world: &mut World, s: PyObjectRef, parts: PySuper) -> Result<Answer, Stop>
    requires object { Holds world.old (IsNode s) }
    requires parts { AllHold world.old (of_payload (payload.Super parts)) }
    ensures goes { Ended result (EndsSaid (λ t w. with_super w s parts.typ.0 (bound_to parts)) world.old world.new) }
    ensures grows { Grows world.old world.new }
    ensures safe { Ended result (λ r. AllHold world.new (of_ended r)) }
{
    let parts = Boxed::new(world.alloc(), parts)?;
    match world.payload(s) {
        Payload::Super(_) => {
            world.set_payload(s, Payload::Super(parts));
            Ok(Answer::Done)
        }
        _ => Err(Stop::raise(Cause::SelfType)),
    }
}

// It goes on with its class and the object, given where it starts.
pub(crate) fn resume_init(
    world: &mut World,
    s: PyObjectRef,
    class: PyTypeRef,
    object: PyObjectRef,
    answer: Result<Answer, Raised>,
) -> Result<Step<DescriptorKept>, OutOfMemory>
    requires kept { AllHold world.old (of_descriptor_kept (DescriptorKept.Starting s class object)) }
    requires answer { AllHold world.old (of_ended answer) }
    ensures goes { IfOk result (λ step. Resumes (DescriptorKept.Starting s class object) answer
        world.old world.new step) }
    ensures safe { Leaves of_descriptor_kept world.old world.new result }
{
    match answer {
        Ok(Answer::Start(start)) => {
            let parts = PySuper {
                typ: class,
                obj: Some((object, start)),
            };
            let ended = caught(set_super(world, s, parts))?;
            Ok(Step::End(ended))
        }
        other => Ok(Step::End(other)),
    }
}
