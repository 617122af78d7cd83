//! The classes of a world: how a host makes and changes them.

ghost use Rattle.std.specs.Prelude.{◌≡◌, ◌≤◌, IfOk};
ghost use Rattle.class_world.specs.Sound.{Holds, IsClass};

use crate::lists::{one_class, one_name};
use crate::{NoValue, Table};
use class_table::{ClassFault, Steps};
use class_world::{Fixed, World};
use py_node::{
    BuiltIn, Known, NativeEntry, ObjectNative, OutOfMemory, PyAttributes, PyTypeFlags, PyTypeRef,
    SlotEntry, SlotId,
};
use std::marker::Brand;
use std::sync::ledger::{Blank, Ledger};
use world_text::show::show;
use world_text::write_classes;

pub fn put(table: &mut Table, world: &mut World) {
    table.put_text("World::new_heap_slots", heap_class(world));
    table.put_bytes(
        "world_text::write_classes",
        write_classes(world.alloc(), world),
    );
    table.put_text("World::new_simple_heap", simple_class(world));
    table.put("World::new_static", static_class(world));
    table.put_text("World::set_attr", attribute(world));
    table.put_text("World::set_str_attr", attribute_by_text(world));
    table.put("World::del_attr_direct", attribute_out(world));
    table.put("World::get_attributes", inherited(world));
    table.put_text("World::set_name", renamed(world));
    table.put("World::set_bases", counted(world));
    table.tell("World::class_log", &world.class_log().len());
    table.tell("World::has_dict", &dicts(world));
    table.put("World::members_of_slots", slots(world));
}

// Whether functions and numbers have a dict.
fn dicts(world: &World) -> (bool, bool) {
    let function = world.built_in(BuiltIn::Function);
    let number = world.built_in(BuiltIn::Int);
    (world.has_dict(function), world.has_dict(number))
}

// Whether the objects of a class with `__dict__` alone in its `__slots__` have a dict, and how many members it has.
fn slots(world: &World) -> Result<(bool, usize), OutOfMemory> {
    let slots = Some(one_name(world.alloc(), world.known(Known::Dict))?);
    let members = world.members_of_slots(&slots)?;
    Ok((world.would_have_dict(&[], &slots), members.len()))
}

// The text of a class.
fn shown(world: &World, class: PyTypeRef) -> Result<String, NoValue>
    requires { Holds world.now (IsClass class.0) }
{
    Ok(show(world, world.class_node(class))?)
}

// A class below `object`.
fn heap_class(world: &mut World) -> Result<String, NoValue> {
    let alloc = world.alloc();
    let metaclass = world.built_in(BuiltIn::TypeType);
    let bases = one_class(alloc, world.built_in(BuiltIn::Object))?;
    let attrs = PyAttributes::new(alloc);
    let class = world.new_heap_slots("A", bases, attrs, None, metaclass)?;
    shown(world, class)
}

// A simple class below `object`.
fn simple(world: &mut World, name: &str) -> Result<PyTypeRef, ClassFault>
    ensures class { IfOk result (λ c. Holds world.new (IsClass c.0)) }
{
    let object = world.built_in(BuiltIn::Object);
    world.new_simple_heap(name, object)
}

fn simple_class(world: &mut World) -> Result<String, NoValue> {
    let class = simple(world, "B")?;
    shown(world, class)
}

// Whether a static class counts as one that a script makes, and whether it has the text of `object`.
fn static_class(world: &mut World) -> Result<(bool, bool), ClassFault> {
    let object = world.built_in(BuiltIn::Object);
    let metaclass = world.built_in(BuiltIn::TypeType);
    let attrs = PyAttributes::new(world.alloc());
    let class = world.new_static("S", object, attrs, PyTypeFlags::DEFAULT, metaclass)?;
    let repr = SlotEntry::Native(NativeEntry::OfObject(ObjectNative::Repr));
    let inherits = world.class_slot(class, SlotId::Repr) == Some(repr);
    Ok((world.class_is_heap(class), inherits))
}

// The text of the attribute `__qualname__` of a class.
fn told_attr(world: &World, class: PyTypeRef) -> Result<String, NoValue>
    requires { Holds world.now (IsClass class.0) }
{
    match world.own_attr(class, world.known(Known::Qualname)) {
        None => Err(NoValue),
        Some(value) => Ok(show(world, value)?),
    }
}

// A class whose attribute `__qualname__` is None.
fn with_attr(world: &mut World) -> Result<PyTypeRef, ClassFault>
    ensures class { IfOk result (λ c. Holds world.new (IsClass c.0)) }
{
    let class = simple(world, "C")?;
    let name = world.known(Known::Qualname);
    let none = world.fixed(Fixed::None);
    world.set_attr(class, name, none)?;
    Ok(class)
}

fn attribute(world: &mut World) -> Result<String, NoValue> {
    let class = with_attr(world)?;
    told_attr(world, class)
}

fn attribute_by_text(world: &mut World) -> Result<String, NoValue> {
    let class = simple(world, "D")?;
    world.set_str_attr(class, "__qualname__", world.truth(false))?;
    told_attr(world, class)
}

// Whether an attribute was there.
fn attribute_out(world: &mut World) -> Result<bool, ClassFault> {
    let class = with_attr(world)?;
    let name = world.known(Known::Qualname);
    world.del_attr_direct(class, name)
}

// How many attributes a class has of its own, and whether it inherits what `object` has.
fn inherited(world: &mut World) -> Result<(usize, bool), NoValue> {
    let class = simple(world, "F")?;
    let all = world.get_attributes(class)?;
    let is_there = all.contains(world.known(Known::Repr));
    Ok((world.attributes(class).len(), is_there))
}

fn renamed(world: &mut World) -> Result<String, NoValue> {
    let class = simple(world, "G")?;
    if world.class_is_heap(class) {
        world.set_name(class, "H")?;
    }
    shown(world, class)
}

// Whether a class is below another one, and whether it still is once it has that one's base.
fn rebased<L: Ledger>(world: &mut World, blank: Blank) -> Result<(bool, bool), NoValue>
    requires name { blank.name ≡ L.name }
    requires parts { blank.parts ≡ L.parts }
    requires both { 2 ≤ L.parts }
{
    let left = simple(world, "L")?;
    let right = world.new_simple_heap("R", left)?;
    let was_below = world.is_sub(right, left);
    let bases = one_class(world.alloc(), world.built_in(BuiltIn::Object))?;
    let mut steps = Steps::<L>::new(blank);
    world.set_bases(right, bases, &mut steps)?;
    Ok((was_below, world.is_sub(right, left)))
}

// The same, whose merges and slots are counted by this call alone.
fn counted(world: &mut World) -> Result<(bool, bool), NoValue> {
    rebased::<Brand>(world, Blank::new(2))
}
