//! What a class that was made gets: the descriptors of its members, and the functions that it defines.

ghost use Rattle.proto_call.specs.Below.{ℕ, length, map, Some, IfSome, OnOk, member_count, datum_at, Reading, Reads, plain, spelled, IsNode, AreNodes, IsClass, IsName, AreNames, IsOffset, Holds, Grows};
ghost use Rattle.std.specs.Prelude.{◌≡◌, ◌+◌, ◌<◌, ◌≤◌};
ghost use Rattle.class_model.specs.Class.{class_at};
ghost use Rattle.proto_call.specs.ClassMake.Say.{defined, functions_of, places_from, put_member, there, with_functions, with_member, with_members, with_own_members};

use class_world::World;
use py_node::{
    BuiltIn, MemberDescriptor, MemberGetter, MemberKind, MemberSetter, OutOfMemory, Payload,
    PyObjectRef, PyStrInterned, PyTypeRef,
};

/// The descriptors of a class's members, for those names that it has no attribute of. The names are those of its own
/// members.
pub(crate) fn add_own_members(
    world: &mut World,
    class: PyTypeRef,
    names: &[PyStrInterned],
) -> Result<(), OutOfMemory>
    requires class { Holds world.old (IsClass class.0) }
    requires names { Holds world.old (AreNames names.now) }
    requires own { (t : Reading) → Reads t world.old →
        member_count (class_at (plain t world.old).classes class.0) ≡ length names.now }
    ensures set { OnOk result ((t : Reading) → Reads t world.new →
        plain t world.new ≡ with_own_members class.0 (map (spelled t) names.now) (plain t world.old)) }
    ensures reads { (t : Reading) → Reads t world.new → Reads t world.old }
    ensures grows { Grows world.old world.new }
{
    let first = places_from(world, class, names);
    add_members(world, class, names, first)
}

// Where the places begin that a class gives its objects itself, by its members of these names.
fn places_from(world: &World, class: PyTypeRef, names: &[PyStrInterned]) -> usize
    requires class { Holds world.now (IsClass class.0) }
    requires own { (t : Reading) → Reads t world.now →
        member_count (class_at (plain t world.now).classes class.0) ≡ length names.now }
    ensures places { (t : Reading) → places_from (plain t world.now) class.0 (map (spelled t) names.now) ≡ result }
    ensures room { result + length names.now ≤ usize.MAX }
    ensures offsets { (i : ℕ) → i < length names.now → Holds world.now (IsOffset class.0 (Some (result + i))) }
{
    world.readable();
    world.member_count(class).saturating_sub(names.len())
}

// The descriptors of members, from a place on.
fn add_members(
    world: &mut World,
    class: PyTypeRef,
    names: &[PyStrInterned],
    first: usize,
) -> Result<(), OutOfMemory>
    requires class { Holds world.old (IsClass class.0) }
    requires names { Holds world.old (AreNames names.now) }
    requires room { first + length names.now ≤ usize.MAX }
    requires offsets { (i : ℕ) → i < length names.now → Holds world.old (IsOffset class.0 (Some (first + i))) }
    ensures set { OnOk result ((t : Reading) → Reads t world.new →
        plain t world.new ≡ with_members class.0 first (map (spelled t) names.now) (plain t world.old)) }
    ensures reads { (t : Reading) → Reads t world.new → Reads t world.old }
    ensures grows { Grows world.old world.new }
{
    for i in 0..names.len() {
        add_member(world, class, names[i], first + i)?;
    }
    Ok(())
}

// The descriptor of a member, unless the class has an attribute of its name.
#[tactic(auto, unfolding(crate::specs::ClassMake::Say::with_member))]
fn add_member(
    world: &mut World,
    class: PyTypeRef,
    name: PyStrInterned,
    place: usize,
) -> Result<(), OutOfMemory>
    requires class { Holds world.old (IsClass class.0) }
    requires name { Holds world.old (IsName name) }
    requires place { Holds world.old (IsOffset class.0 (Some place)) }
    ensures set { OnOk result ((t : Reading) → Reads t world.new →
        plain t world.new ≡ with_member class.0 place (spelled t name) (plain t world.old)) }
    ensures reads { (t : Reading) → Reads t world.new → Reads t world.old }
    ensures grows { Grows world.old world.new }
{
    if world.class_attr(class, name).is_some() {
        return Ok(());
    }
    put_member(world, class, name, place)
}

// The descriptor of a member.
#[tactic(auto, unfolding(py_node::specs::BuiltIns::place_of))]
fn put_member(
    world: &mut World,
    class: PyTypeRef,
    name: PyStrInterned,
    place: usize,
) -> Result<(), OutOfMemory>
    requires class { Holds world.old (IsClass class.0) }
    requires name { Holds world.old (IsName name) }
    requires place { Holds world.old (IsOffset class.0 (Some place)) }
    ensures set { OnOk result ((t : Reading) →
        plain t world.new ≡ put_member class.0 place (spelled t name) (plain t world.old)) }
    ensures reads { (t : Reading) → Reads t world.new → Reads t world.old }
    ensures grows { Grows world.old world.new }
{
    let member = MemberDescriptor {
        class,
        name,
        kind: MemberKind::ObjectEx,
        getter: MemberGetter::Offset(place),
        setter: MemberSetter::Offset(place),
        qualname: None,
        doc: None,
    };
    let home = world.built_in(BuiltIn::MemberDescriptor);
    let boxed = Box::new(world.alloc(), member)?;
    let node = world.make_node(home, Payload::Member(boxed))?;
    match world.set_attr(class, name, node) {
        Ok(()) => Ok(()),
        Err(_) => Err(OutOfMemory),
    }
}

/// Each function among some values, or within one, that no class defines yet is defined by this class.
pub(crate) fn define_functions(world: &mut World, class: PyTypeRef, values: &[PyObjectRef])
    requires class { Holds world.old (IsClass class.0) }
    requires values { Holds world.old (AreNodes values.now) }
    ensures set { (t : Reading) → plain t world.new ≡ with_functions class.0 (plain t world.old) values.now }
    ensures reads { (t : Reading) → Reads t world.new → Reads t world.old }
    ensures grows { Grows world.old world.new }
{
    for value in values {
        define_value(world, class, *value);
    }
}

// The functions that a value is or wraps are defined by a class.
fn define_value(world: &mut World, class: PyTypeRef, value: PyObjectRef)
    requires class { Holds world.old (IsClass class.0) }
    requires value { Holds world.old (IsNode value) }
    ensures set { (t : Reading) → plain t world.new ≡
        defined class.0 (plain t world.old) (functions_of value (datum_at (plain t world.old) value)) }
    ensures reads { (t : Reading) → Reads t world.new → Reads t world.old }
    ensures grows { Grows world.old world.new }
{
    match world.payload(value) {
        Payload::ClassMethod(func) => {
            let func = *func;
            world.set_definer(class, func);
        }
        Payload::StaticMethod(func) => {
            let func = *func;
            world.set_definer(class, func);
        }
        Payload::Property(property) => {
            let property = **property;
            define_part(world, class, property.fget);
            define_part(world, class, property.fset);
            define_part(world, class, property.fdel);
        }
        _ => world.set_definer(class, value),
    }
}

// The same of a part of a property, if there is one.
fn define_part(world: &mut World, class: PyTypeRef, part: Option<PyObjectRef>)
    requires class { Holds world.old (IsClass class.0) }
    requires part { IfSome part (λ f. Holds world.old (IsNode f)) }
    ensures set { (t : Reading) → plain t world.new ≡ defined class.0 (plain t world.old) (there part) }
    ensures reads { (t : Reading) → Reads t world.new → Reads t world.old }
    ensures grows { Grows world.old world.new }
{
    match part {
        None => (),
        Some(func) => world.set_definer(class, func),
    }
}
