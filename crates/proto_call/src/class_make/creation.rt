//! A class that is made as planned.

ghost use Rattle.proto_call.specs.Below.{string_bytes, None, IfOk, TypeType, numbers, refused_layout, Leaves, slot_texts, of_slots, Reading, Reads, bindings, plain, IsNode, IsClass, IsOf, Holds, AllHold, of_binding, of_class_ref, of_each};
ghost use Rattle.std.specs.Prelude.{◌≡◌};
ghost use Rattle.proto_call.specs.ClassMake.Say.{values_of, names_in, made, made_in, with_names, with_slots};
ghost use Rattle.proto_call.specs.ClassMake.Rows.{Makes, of_class_kept};

use crate::class_make::ClassKept;
use crate::class_make::attributes::dicted;
use crate::class_make::members::{add_own_members, define_functions};
use crate::class_make::slots::names_in;
use crate::class_make::tell::tell;
use class_table::ClassFault;
use class_world::World;
use py_node::task::Keywords;
use py_node::{
    Cause, Known, OutOfMemory, PyAttributes, PyObjectRef, PyStrInterned, PyTypeRef, Step,
};
use std::alloc::Global;

/// What a class is made from: its metaclass, its name, its bases and its attributes.
#[derive(Drop)]
pub(crate) struct Plan {
    pub(crate) meta: PyTypeRef,
    pub(crate) name: String,
    pub(crate) bases: Vec<PyTypeRef>,
    pub(crate) attrs: PyAttributes,
}

/// Makes a class as planned, of bases that are allowed together. What `__slots__` names must be texts.
#[tactic(auto, unfolding(crate::specs::ClassMake::Say::class_job_say, crate::specs::ClassMake::Say::made))]
pub(crate) fn made(
    world: &mut World,
    plan: Plan,
    kw: Keywords,
) -> Result<Step<ClassKept>, OutOfMemory>
    requires meta { Holds world.old (IsClass plan.meta.0) }
    requires meta_of { Holds world.old (IsOf plan.meta.0 TypeType) }
    requires bases { AllHold world.old (of_each of_class_ref plan.bases.items) }
    requires layout { (t : Reading) → Reads t world.old →
        refused_layout (plain t world.old).classes (numbers plan.bases.items) ≡ None }
    requires attrs { AllHold world.old (of_each of_binding plan.attrs) }
    requires kw { AllHold world.old (of_each of_binding kw.items) }
    ensures goes { IfOk result (λ step. Makes kw.items (λ t u.
        made plan.meta.0 (string_bytes plan.name) (numbers plan.bases.items) (bindings t kw.items)
        (u, bindings t plan.attrs)) world.old world.new step) }
    ensures safe { Leaves of_class_kept world.old world.new result }
{
    let slots = world.known(Known::Slots);
    match plan.attrs.get(slots) {
        None => with_slots(world, plan, None, kw),
        Some(value) => by_names(world, plan, value, kw),
    }
}

// The same, with the value of `__slots__`.
#[tactic(auto, unfolding(crate::specs::ClassMake::Say::class_job_say))]
fn by_names(
    world: &mut World,
    plan: Plan,
    value: PyObjectRef,
    kw: Keywords,
) -> Result<Step<ClassKept>, OutOfMemory>
    requires meta { Holds world.old (IsClass plan.meta.0) }
    requires meta_of { Holds world.old (IsOf plan.meta.0 TypeType) }
    requires bases { AllHold world.old (of_each of_class_ref plan.bases.items) }
    requires layout { (t : Reading) → Reads t world.old →
        refused_layout (plain t world.old).classes (numbers plan.bases.items) ≡ None }
    requires attrs { AllHold world.old (of_each of_binding plan.attrs) }
    requires value { Holds world.old (IsNode value) }
    requires kw { AllHold world.old (of_each of_binding kw.items) }
    ensures goes { IfOk result (λ step. Makes kw.items (λ t u.
        with_names (names_in u value) plan.meta.0 (string_bytes plan.name) (numbers plan.bases.items)
        (bindings t kw.items) (u, bindings t plan.attrs)) world.old world.new step) }
    ensures safe { Leaves of_class_kept world.old world.new result }
{
    let names = names_in(world, value)?;
    match names {
        None => Ok(Step::raise(Cause::SlotsType)),
        Some(names) => with_slots(world, plan, Some(names), kw),
    }
}

// Makes a class with these `__slots__`, or with none.
#[tactic(auto, unfolding(crate::specs::ClassMake::Say::class_job_say))]
fn with_slots(
    world: &mut World,
    plan: Plan,
    slots: Option<Vec<PyStrInterned>>,
    kw: Keywords,
) -> Result<Step<ClassKept>, OutOfMemory>
    requires meta { Holds world.old (IsClass plan.meta.0) }
    requires meta_of { Holds world.old (IsOf plan.meta.0 TypeType) }
    requires bases { AllHold world.old (of_each of_class_ref plan.bases.items) }
    requires layout { (t : Reading) → Reads t world.old →
        refused_layout (plain t world.old).classes (numbers plan.bases.items) ≡ None }
    requires attrs { AllHold world.old (of_each of_binding plan.attrs) }
    requires slots { AllHold world.old (of_slots slots) }
    requires kw { AllHold world.old (of_each of_binding kw.items) }
    ensures goes { IfOk result (λ step. Makes kw.items (λ t u.
        with_slots plan.meta.0 (string_bytes plan.name) (numbers plan.bases.items) (slot_texts t slots)
        (bindings t kw.items) (u, bindings t plan.attrs)) world.old world.new step) }
    ensures safe { Leaves of_class_kept world.old world.new result }
{
    let Plan {
        meta,
        name,
        bases,
        attrs,
    } = plan;
    let attrs = dicted(world, &bases, &slots, attrs)?;
    let plan = Plan {
        meta,
        name,
        bases,
        attrs,
    };
    new_class(world, plan, slots, kw)
}

// Makes a class and tells of it, unless the world refuses it: its bases have no order, or its qualified name is
// no text.
#[tactic(auto, unfolding(crate::specs::ClassMake::Say::class_job_say, crate::specs::ClassMake::Say::made_unless))]
fn new_class(
    world: &mut World,
    plan: Plan,
    slots: Option<Vec<PyStrInterned>>,
    kw: Keywords,
) -> Result<Step<ClassKept>, OutOfMemory>
    requires meta { Holds world.old (IsClass plan.meta.0) }
    requires meta_of { Holds world.old (IsOf plan.meta.0 TypeType) }
    requires bases { AllHold world.old (of_each of_class_ref plan.bases.items) }
    requires layout { (t : Reading) → Reads t world.old →
        refused_layout (plain t world.old).classes (numbers plan.bases.items) ≡ None }
    requires attrs { AllHold world.old (of_each of_binding plan.attrs) }
    requires slots { AllHold world.old (of_slots slots) }
    requires kw { AllHold world.old (of_each of_binding kw.items) }
    ensures goes { IfOk result (λ step. Makes kw.items (λ t u.
        made_in plan.meta.0 (string_bytes plan.name) (numbers plan.bases.items) (slot_texts t slots)
        (bindings t kw.items) (u, bindings t plan.attrs)) world.old world.new step) }
    ensures safe { Leaves of_class_kept world.old world.new result }
{
    let alloc = world.alloc();
    let Plan {
        meta,
        name,
        bases,
        attrs,
    } = plan;
    let values = values_of(alloc, &attrs)?;
    let members = world.members_of_slots(&slots)?;
    world.sound();
    match world.new_heap_slots(name.as_str(), bases, attrs, slots, meta) {
        Err(ClassFault::OutOfMemory) => Err(OutOfMemory),
        Err(ClassFault::Refused(cause)) => Ok(Step::raise(cause)),
        Err(ClassFault::RefusedAt(_, _)) => unreachable!(),
        Ok(class) => {
            define_functions(world, class, &values);
            add_own_members(world, class, &members)?;
            tell(world, class, kw)
        }
    }
}

// The values of the attributes.
fn values_of(alloc: Global, attrs: &PyAttributes) -> Result<Vec<PyObjectRef>, OutOfMemory>
    ensures { IfOk result (λ v. v.items ≡ values_of attrs.now) }
{
    let mut values = Vec::new(alloc);
    for i in 0..attrs.len() {
        let (_, value) = attrs.at(i);
        values.push(value)?;
    }
    Ok(values)
}
