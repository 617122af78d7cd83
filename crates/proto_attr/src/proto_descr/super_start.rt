//! Where `super` starts to look, and what it is bound to.
#![tactic(auto, unfolding(crate::specs::ProtoDescr::Say::descriptor_say, py_node::specs::BuiltIns::place_of))]

ghost use Rattle.py_node.specs.Stops.{Ended};
ghost use Rattle.proto_attr.specs.Below.{[], Option, IfOk, class_at, datum_at, ref, of_descriptor_task, of_ended, of_step, Leaves, Reading, ended_of, plain, AllHold, Grows, IsClass, IsNode, of_option, of_node_ref};
ghost use Rattle.std.specs.Prelude.{◌≡◌, ◌∷◌};
ghost use Rattle.py_node.specs.declared.task.DescriptorTask.TheVariants as descriptor;
ghost use Rattle.proto_attr.specs.ProtoDescr.Supers.{check_class, super_bound, super_get};
ghost use Rattle.proto_attr.specs.ProtoDescr.Rows.{Begins, EndsSaid, Resumes, Starts, of_descriptor_kept, of_parts, super_asked};

use crate::proto_descr::DescriptorKept;
use class_world::{Fixed, World};
use py_node::{
    Answer, AttributeTask, Boxed, BuiltIn, Cause, DescriptorTask, Known, OutOfMemory, Payload,
    PyObjectRef, PySuper, PyTypeRef, Raised, Step, Stop, Task, caught,
};

/// The class of a `super` that is bound to nothing yet, and the object that it is to be bound to.
pub type Unbound = (PyTypeRef, PyObjectRef);

// The class from which `super` of a class starts for an object: the object itself, where it is a class that
// derives from that one.
pub(crate) fn super_check(world: &World, class: PyTypeRef, o: PyObjectRef) -> Step<DescriptorKept>
    requires { AllHold world.now (of_descriptor_task (descriptor.SuperCheck class o)) }
    ensures goes { Begins (descriptor.SuperCheck class o) world.now world.now result }
    ensures safe { AllHold world.now (of_step of_descriptor_kept result) }
{
    match world.class_number(o) {
        Some(own) => {
            if world.is_sub(own, class) {
                Step::End(Ok(Answer::Start(own)))
            } else {
                check_class(world, class, o)
            }
        }
        None => check_class(world, class, o),
    }
}

// Or else the object's class, where that does. Else the object is asked for its class.
fn check_class(world: &World, class: PyTypeRef, o: PyObjectRef) -> Step<DescriptorKept>
    requires { AllHold world.now (of_descriptor_task (descriptor.SuperCheck class o)) }
    ensures goes { Starts (descriptor.SuperCheck class o)
        (λ t w. check_class w class.0 o (class_at w o)) world.now world.now result }
    ensures safe { AllHold world.now (of_step of_descriptor_kept result) }
{
    let own = world.class_of(o);
    if world.is_sub(own, class) {
        return Step::End(Ok(Answer::Start(own)));
    }
    let task = AttributeTask::GetAttr(o, world.known(Known::Class));
    Step::Ask(Task::Attribute(task), DescriptorKept::AfterClass(class))
}

// What an object says is its class, where that is a class that derives from this one, and is another.
pub(crate) fn told_start(
    world: &World,
    class: PyTypeRef,
    answer: Result<Answer, Raised>,
) -> Step<DescriptorKept>
    requires kept { AllHold world.now (of_descriptor_kept (DescriptorKept.AfterClass class)) }
    requires answer { AllHold world.now (of_ended answer) }
    ensures goes { Resumes (DescriptorKept.AfterClass class) answer world.now world.now result }
    ensures safe { AllHold world.now (of_step of_descriptor_kept result) }
{
    match answer {
        Ok(Answer::Value(object)) => match world.class_number(object) {
            None => Step::raise(Cause::SuperCheckFailed),
            Some(own) => {
                if own.0 != class.0 && world.is_sub(own, class) {
                    Step::End(Ok(Answer::Start(own)))
                } else {
                    Step::raise(Cause::SuperCheckFailed)
                }
            }
        },
        other => Step::End(other),
    }
}

// A `super` that is bound to nothing is told where to start for an object.
pub(crate) fn get_of_super(
    world: &World,
    m: PyObjectRef,
    o: Option<PyObjectRef>,
    class: Option<PyObjectRef>,
) -> Step<DescriptorKept>
    requires { AllHold world.now (of_descriptor_task (descriptor.DescrGet m o class)) }
    ensures goes { Starts (descriptor.DescrGet m o class)
        (λ t w. super_get w (datum_at w m) m o) world.now world.now result }
    ensures safe { AllHold world.now (of_step of_descriptor_kept result) }
{
    match unbound_super(world, m, o) {
        None => Step::End(Ok(Answer::Value(m))),
        Some((class, object)) => {
            let task = DescriptorTask::SuperCheck(class, object);
            Step::Ask(
                Task::Descriptor(task),
                DescriptorKept::Binding(class, object),
            )
        }
    }
}

/// The class of a `super` that is bound to nothing, and the object other than None that it is to be bound to.
pub fn unbound_super(world: &World, m: PyObjectRef, o: Option<PyObjectRef>) -> Option<Unbound>
    requires { AllHold world.now (IsNode m ∷ of_option of_node_ref o) }
    ensures reads { (t : Reading) →
        super_get (plain t world.now) (datum_at (plain t world.now) m) m o ≡ super_asked (plain t world.now) result m }
    ensures holds { AllHold world.now (of_option of_parts result) }
{
    match (world.payload(m), o) {
        (Payload::Super(parts), Some(object)) => {
            let parts = parts.get();
            match parts.obj {
                Some(_) => None,
                None => {
                    if object.0 == Fixed::None.node().0 {
                        None
                    } else {
                        Some((parts.typ, object))
                    }
                }
            }
        }
        _ => None,
    }
}

/// A new `super` of a class is bound to an object, given where it starts.
pub fn bind_super(
    world: &mut World,
    class: PyTypeRef,
    object: PyObjectRef,
    answer: Result<Answer, Raised>,
) -> Result<Answer, Stop>
    requires kept { AllHold world.old (IsClass class.0 ∷ IsNode object ∷ []) }
    requires answer { AllHold world.old (of_ended answer) }
    ensures goes { Ended result (EndsSaid (λ t w. super_bound w (ref class.0) object (ended_of answer))
        world.old world.new) }
    ensures grows { Grows world.old world.new }
    ensures safe { Ended result (λ r. AllHold world.new (of_ended r)) }
{
    match answer {
        Ok(Answer::Start(start)) => {
            let parts = PySuper {
                typ: class,
                obj: Some((object, start)),
            };
            let class = world.built_in(BuiltIn::Super);
            let parts = Boxed::new(world.alloc(), parts)?;
            let node = world.make_node(class, Payload::Super(parts))?;
            Ok(Answer::Value(node))
        }
        other => Ok(other?),
    }
}

// A `super` goes on with its class and the object.
pub(crate) fn resume_binding(
    world: &mut World,
    class: PyTypeRef,
    object: PyObjectRef,
    answer: Result<Answer, Raised>,
) -> Result<Step<DescriptorKept>, OutOfMemory>
    requires kept { AllHold world.old (of_descriptor_kept (DescriptorKept.Binding class object)) }
    requires answer { AllHold world.old (of_ended answer) }
    ensures goes { IfOk result (λ step. Resumes (DescriptorKept.Binding class object) answer
        world.old world.new step) }
    ensures safe { Leaves of_descriptor_kept world.old world.new result }
{
    let ended = caught(bind_super(world, class, object, answer))?;
    Ok(Step::End(ended))
}
