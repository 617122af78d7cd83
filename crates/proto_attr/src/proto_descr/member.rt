//! What the descriptors of members read and set.
#![tactic(auto, unfolding(crate::specs::ProtoDescr::Say::descriptor_say, py_node::specs::BuiltIns::place_of))]

ghost use Rattle.proto_attr.specs.Below.{[], true, IfOk, is_instance, set_offset, datum_at, of_descriptor_task, of_ended, of_setter, Leaves, Reading, ended_of, plain, setter_value, AllHold, IsClass, IsNode, IsOffset, of_option, of_node_ref};
ghost use Rattle.std.specs.Prelude.{◌≡◌, ◌∷◌};
ghost use Rattle.py_node.specs.declared.task.DescriptorTask.TheVariants as descriptor;
ghost use Rattle.proto_attr.specs.ProtoDescr.Members.{member_get, member_set, or_empty, read_member, set_member, takes};
ghost use Rattle.proto_attr.specs.ProtoDescr.Rows.{Starts, StepsAs, nothing_held, of_descriptor_kept};

use crate::proto_descr::DescriptorKept;
use crate::proto_descr::descr_set::set_by_native;
use crate::proto_descr::wrapped::passed;
use class_world::World;
use class_world::args::alone;
use class_world::natives::native_task;
use py_node::{
    Answer, BuiltIn, Cause, MemberDescriptor, MemberGetter, MemberKind, MemberSetter, OutOfMemory,
    Payload, PyObjectRef, PySetterValue, Raised, Step,
};

// What the descriptor of a member gives for an object.
pub(crate) fn get_of_member(
    world: &World,
    m: PyObjectRef,
    o: Option<PyObjectRef>,
    class: Option<PyObjectRef>,
) -> Result<Step<DescriptorKept>, OutOfMemory>
    requires { AllHold world.now (of_descriptor_task (descriptor.DescrGet m o class)) }
    ensures goes { IfOk result (λ step. Starts (descriptor.DescrGet m o class)
        (λ t w. member_get w (datum_at w m) m o) world.now world.now step) }
    ensures safe { Leaves of_descriptor_kept world.now world.now result }
{
    let step = member_get(world, m, o)?;
    Ok(passed(step))
}

/// A member is read of an object of its class. Without an object the descriptor gives itself.
pub fn member_get(
    world: &World,
    m: PyObjectRef,
    o: Option<PyObjectRef>,
) -> Result<Step<()>, OutOfMemory>
    requires { AllHold world.now (IsNode m ∷ of_option of_node_ref o) }
    ensures steps { IfOk result (λ step. StepsAs (λ t w. member_get w (datum_at w m) m o)
        world.now world.now step) }
    ensures safe { Leaves nothing_held world.now world.now result }
{
    match (world.payload(m), o) {
        (Payload::Member(member), Some(object)) => {
            if world.is_instance(object, member.class) {
                read_member(world, member, object)
            } else {
                Ok(Step::raise(Cause::MemberClass))
            }
        }
        _ => Ok(Step::End(Ok(Answer::Value(m)))),
    }
}

// It is read by a native, or in its place.
fn read_member(
    world: &World,
    member: &MemberDescriptor,
    o: PyObjectRef,
) -> Result<Step<()>, OutOfMemory>
    requires { AllHold world.now (IsNode o ∷ IsClass member.now.class.0 ∷ []) }
    ensures steps { IfOk result (λ step. StepsAs
        (λ t w. read_member w member.now.class.0 member.now.kind member.now.getter o) world.now world.now step) }
    ensures safe { Leaves nothing_held world.now world.now result }
{
    match member.getter {
        MemberGetter::Getter(native) => {
            let alloc = world.alloc();
            let args = alone(alloc, o)?;
            let task = native_task(native, args, Vec::new(alloc));
            Ok(Step::Ask(task, ()))
        }
        MemberGetter::Offset(offset) => {
            let value = world.member_value(o, member.class, offset);
            Ok(Step::End(or_empty(world, member.kind, value)))
        }
    }
}

// An empty place is False where the member is a truth value, and else it is a fault to read it.
fn or_empty(world: &World, kind: MemberKind, value: Option<PyObjectRef>) -> Result<Answer, Raised>
    requires { AllHold world.now (of_option of_node_ref value) }
    ensures answer { ended_of result ≡ or_empty kind value }
    ensures holds { AllHold world.now (of_ended result) }
{
    match value {
        Some(value) => Ok(Answer::Value(value)),
        None => match kind {
            MemberKind::Bool => Ok(Answer::Value(world.truth(false))),
            MemberKind::ObjectEx => Err(Raised::new(Cause::EmptyMember)),
        },
    }
}

/// A member is set in an object of its class.
pub fn member_set(
    world: &mut World,
    m: PyObjectRef,
    o: PyObjectRef,
    value: PySetterValue,
) -> Result<Step<()>, OutOfMemory>
    requires { AllHold world.old (IsNode m ∷ IsNode o ∷ of_setter value) }
    ensures steps { IfOk result (λ step. StepsAs (λ t w. member_set w (datum_at w m) o (setter_value value))
        world.old world.new step) }
    ensures safe { Leaves nothing_held world.old world.new result }
{
    match world.payload(m) {
        Payload::Member(member) => {
            let member = **member;
            if world.is_instance(o, member.class) {
                set_member(world, member, o, value)
            } else {
                Ok(Step::raise(Cause::MemberClass))
            }
        }
        _ => Ok(Step::End(Ok(Answer::Done))),
    }
}

// It is set by a native, if by anything, or in its place, which may be emptied.
fn set_member(
    world: &mut World,
    member: MemberDescriptor,
    o: PyObjectRef,
    value: PySetterValue,
) -> Result<Step<()>, OutOfMemory>
    requires holds { AllHold world.old (IsNode o ∷ IsClass member.class.0 ∷
        IsOffset member.class.0 (set_offset member.setter) ∷ of_setter value) }
    requires instance { (t : Reading) → is_instance (plain t world.old) o member.class.0 ≡ true }
    ensures steps { IfOk result (λ step. StepsAs
        (λ t w. set_member w member.class.0 member.kind member.setter o (setter_value value))
        world.old world.new step) }
    ensures safe { Leaves nothing_held world.old world.new result }
{
    match member.setter {
        MemberSetter::Setter(None) => Ok(Step::raise(Cause::ReadOnly)),
        MemberSetter::Setter(Some(native)) => {
            let task = set_by_native(world, native, o, value)?;
            Ok(Step::Ask(task, ()))
        }
        MemberSetter::Offset(offset) => {
            if takes(world, member.kind, value) {
                world.set_member_value(o, member.class, offset, value);
                Ok(Step::End(Ok(Answer::Done)))
            } else {
                Ok(Step::raise(Cause::MemberBool))
            }
        }
    }
}

// A member that is a truth value takes no other objects.
fn takes(world: &World, kind: MemberKind, value: PySetterValue) -> bool
    requires { AllHold world.now (of_setter value) }
    ensures { (t : Reading) → takes (plain t world.now) kind (setter_value value) ≡ result }
{
    match (kind, value) {
        (MemberKind::Bool, PySetterValue::Assign(value)) => {
            let class = world.built_in(BuiltIn::Bool);
            world.is_instance(value, class)
        }
        _ => true,
    }
}
