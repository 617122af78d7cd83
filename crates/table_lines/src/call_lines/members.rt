//! What stands in the places of a class's objects.

ghost use Rattle.std.specs.Prelude.{◌≡◌, true, IfOk};
ghost use Rattle.py_node.specs.declared.built_in.BuiltIn.TheVariants.{Object};
ghost use Rattle.class_world.specs.Sound.{Holds, IsClass, IsNode, IsOf};

use crate::lists::{one_class, one_name};
use crate::{NoValue, Table};
use class_table::ClassFault;
use class_world::{Fixed, World};
use py_node::{BuiltIn, Known, Payload, PyAttributes, PyObjectRef, PySetterValue, PyTypeRef};
use world_text::show::show;

pub fn put(table: &mut Table, world: &mut World) {
    table.put_text("World::set_member_value", member_set(world));
}

// A class below `object` with one member.
fn with_member(world: &mut World) -> Result<PyTypeRef, ClassFault>
    ensures { IfOk result (λ c. Holds world.new (IsClass c.0)) }
{
    let alloc = world.alloc();
    let metaclass = world.built_in(BuiltIn::TypeType);
    let bases = one_class(alloc, world.built_in(BuiltIn::Object))?;
    let members = one_name(alloc, world.known(Known::Qualname))?;
    world.new_heap_slots(
        "M",
        bases,
        PyAttributes::new(alloc),
        Some(members),
        metaclass,
    )
}

// Whether the objects of a class are those of `object`.
fn is_plain(world: &World, class: PyTypeRef) -> bool
    requires { Holds world.now (IsClass class.0) }
    ensures { result ≡ true → Holds world.now (IsOf class.0 Object) }
{
    match world.nearest_built_in(class) {
        Some(nearest) => nearest.0 == BuiltIn::Object.class().0,
        None => false,
    }
}

// None in the first place of a new object.
fn member_set(world: &mut World) -> Result<String, NoValue> {
    let class = with_member(world)?;
    if !is_plain(world, class) {
        return Err(NoValue);
    }
    let object = world.make_node(class, Payload::Object)?;
    set_first(world, object, class)
}

fn set_first(world: &mut World, object: PyObjectRef, class: PyTypeRef) -> Result<String, NoValue>
    requires object { Holds world.old (IsNode object) }
    requires class { Holds world.old (IsClass class.0) }
{
    if world.member_count(class) == 0 || !world.is_instance(object, class) {
        return Err(NoValue);
    }
    let none = world.fixed(Fixed::None);
    world.set_member_value(object, class, 0, PySetterValue::Assign(none));
    match world.member_value(object, class, 0) {
        None => Err(NoValue),
        Some(value) => Ok(show(world, value)?),
    }
}
