//! What `super` looks up.
#![tactic(auto, unfolding(crate::specs::ProtoDescr::Say::descriptor_say))]

ghost use Rattle.proto_attr.specs.Below.{ℕ, [], List, Option, All, along, numbers, datum_at, is_text, of_descriptor_task, of_step, Reading, Reads, plain, spelled, AllHold, Holds, IsClass, IsName, IsNode, of_option, of_node_ref};
ghost use Rattle.std.specs.Prelude.{◌≡◌, ◌∷◌};
ghost use Rattle.py_node.specs.declared.task.DescriptorTask.TheVariants as descriptor;
ghost use Rattle.proto_attr.specs.ProtoDescr.Supers.{after, found_after, looked_up, super_attribute, unless_start};
ghost use Rattle.proto_attr.specs.ProtoDescr.Rows.{Begins, Starts, bound_attribute, of_bound, of_descriptor_kept};

use crate::proto_descr::DescriptorKept;
use class_world::World;
use py_node::{
    Answer, AttributeTask, DescriptorTask, Known, Payload, PyObjectRef, PyStrInterned, PyTypeRef,
    SlotId, Step, Task,
};

/// What a `super` is of that is bound: its class, the object, and the class from which it starts.
#[derive(Clone, Copy)]
pub struct BoundSuper {
    pub class: PyTypeRef,
    pub object: PyObjectRef,
    pub start: PyTypeRef,
}

// An attribute of what a `super` stands for. One that is bound to nothing is read as any object, and so is its
// class.
pub(crate) fn super_get(world: &World, s: PyObjectRef, name: PyStrInterned) -> Step<DescriptorKept>
    requires { AllHold world.now (of_descriptor_task (descriptor.SuperGet s name)) }
    ensures goes { Begins (descriptor.SuperGet s name) world.now world.now result }
    ensures safe { AllHold world.now (of_step of_descriptor_kept result) }
{
    match bound(world, s) {
        None => generic(s, name),
        Some(parts) => {
            if name.0 == world.known(Known::Class).0 {
                generic(s, name)
            } else {
                look_up(world, s, name, parts)
            }
        }
    }
}

// It is read as any object.
fn generic(s: PyObjectRef, name: PyStrInterned) -> Step<DescriptorKept>
    ensures { result ≡ Step.Ask (Task.Attribute (AttributeTask.Generic s name)) DescriptorKept.Pass }
{
    let task = AttributeTask::Generic(s, name);
    Step::Ask(Task::Attribute(task), DescriptorKept::Pass)
}

// What a `super` is of, if it is bound.
fn bound(world: &World, s: PyObjectRef) -> Option<BoundSuper>
    requires { Holds world.now (IsNode s) }
    ensures reads { (t : Reading) (x : List ℕ) →
        super_attribute (plain t world.now) (datum_at (plain t world.now) s) s x ≡
        bound_attribute (plain t world.now) result s x }
    ensures holds { AllHold world.now (of_option of_bound result) }
{
    match world.payload(s) {
        Payload::Super(parts) => {
            let parts = parts.get();
            match parts.obj {
                None => None,
                Some((object, start)) => Some(BoundSuper {
                    class: parts.typ,
                    object,
                    start,
                }),
            }
        }
        _ => None,
    }
}

// What is found is bound to the object. Where nothing is, `super` is read as any object.
fn look_up(
    world: &World,
    s: PyObjectRef,
    name: PyStrInterned,
    parts: BoundSuper,
) -> Step<DescriptorKept>
    requires task { AllHold world.now (of_descriptor_task (descriptor.SuperGet s name)) }
    requires parts { AllHold world.now (of_bound parts) }
    ensures goes { Starts (descriptor.SuperGet s name) (λ t w. looked_up w s (spelled t name) parts.object parts.start.0
        (found_after w parts.start.0 parts.class.0 (spelled t name))) world.now world.now result }
    ensures safe { AllHold world.now (of_step of_descriptor_kept result) }
{
    let Some(value) = find_after(world, parts.start, parts.class, name) else {
        return generic(s, name);
    };
    if world.slot(value, SlotId::DescrGet).is_some() {
        let object = unless_start(parts.start, parts.object);
        let class = world.class_object(parts.start);
        let task = DescriptorTask::DescrGet(value, object, Some(class));
        Step::Ask(Task::Descriptor(task), DescriptorKept::Pass)
    } else {
        Step::End(Ok(Answer::Value(value)))
    }
}

// The object for which a value is asked: there is none where that is the class where the search starts.
fn unless_start(start: PyTypeRef, object: PyObjectRef) -> Option<PyObjectRef>
    ensures { result ≡ unless_start start.0 object }
{
    if object.0 == start.0 {
        None
    } else {
        Some(object)
    }
}

// The value of a name in the first class that has it itself, of those after a class along the linearisation of
// another.
fn find_after(
    world: &World,
    start: PyTypeRef,
    class: PyTypeRef,
    name: PyStrInterned,
) -> Option<PyObjectRef>
    requires { AllHold world.now (IsClass start.0 ∷ IsName name ∷ []) }
    ensures found { (t : Reading) → Reads t world.now →
        found_after (plain t world.now) start.0 class.0 (spelled t name) ≡ result }
    ensures node { AllHold world.now (of_option of_node_ref result) }
{
    find_in(world, world.classes().mro(start), class, name)
}

// The same along a line of classes.
fn find_in(
    world: &World,
    line: &[PyTypeRef],
    class: PyTypeRef,
    name: PyStrInterned,
) -> Option<PyObjectRef>
    requires { All (λ c. Holds world.now (IsClass c.0)) line.now }
    ensures found { (t : Reading) → Reads t world.now →
        along (λ y. is_text y (spelled t name)) (plain t world.now).classes (after class.0 (numbers line.now)) ≡ result }
    ensures node { AllHold world.now (of_option of_node_ref result) }
{
    let mut past = false;
    for member in line {
        if past {
            if let Some(value) = world.own_attr(*member, name) {
                return Some(value);
            }
        }
        past = past || member.0 == class.0;
    }
    None
}
