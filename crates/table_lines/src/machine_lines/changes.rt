//! The classes of a machine: how a host makes and changes them.

ghost use Rattle.std.specs.Prelude.{◌≡◌, ◌≤◌, IfOk};
ghost use Rattle.class_world.specs.Sound.{Holds, IsClass};

use crate::lists::one_class;
use crate::{NoValue, Table};
use class_table::{ClassFault, Steps};
use class_world::Fixed;
use proto_attr::native_defs::PyMethodDef;
use py_node::{
    BuiltIn, Known, NativeEntry, PyAttributes, PyMethodFlags, PyTypeFlags, PyTypeRef, StrNative,
};
use std::marker::Brand;
use std::sync::ledger::{Blank, Ledger};
use vm_eval::VirtualMachine;
use world_text::show::show;

pub fn put(table: &mut Table, vm: &mut VirtualMachine) {
    table.put_text("VirtualMachine::new_simple_heap", simple_class(vm));
    table.put("VirtualMachine::new_static", static_class(vm));
    table.put_text("VirtualMachine::set_str_attr", attribute_by_text(vm));
    table.put("VirtualMachine::del_attr_direct", attribute_out(vm));
    table.put("VirtualMachine::set_bases", counted(vm));
    table.put("VirtualMachine::extend_methods", extended(vm));
    table.tell("VirtualMachine::class_log", &vm.class_log().len());
}

// A simple class below `object`.
fn simple(vm: &mut VirtualMachine, name: &str) -> Result<PyTypeRef, ClassFault>
    ensures class { IfOk result (λ c. Holds vm.new.world (IsClass c.0)) }
{
    let object = vm.world().built_in(BuiltIn::Object);
    vm.new_simple_heap(name, object)
}

fn simple_class(vm: &mut VirtualMachine) -> Result<String, NoValue> {
    let class = simple(vm, "B")?;
    Ok(show(vm.world(), vm.world().class_node(class))?)
}

// Whether a static class counts as one that a script makes.
fn static_class(vm: &mut VirtualMachine) -> Result<bool, ClassFault> {
    let object = vm.world().built_in(BuiltIn::Object);
    let metaclass = vm.world().built_in(BuiltIn::TypeType);
    let attrs = PyAttributes::new(vm.world().alloc());
    let class = vm.new_static("S", object, attrs, PyTypeFlags::DEFAULT, metaclass)?;
    Ok(vm.world().class_is_heap(class))
}

// An attribute of a class, read again.
fn attribute_by_text(vm: &mut VirtualMachine) -> Result<String, NoValue> {
    let class = simple(vm, "D")?;
    vm.set_str_attr(class, "__qualname__", vm.world().truth(false))?;
    match vm
        .world()
        .own_attr(class, vm.world().known(Known::Qualname))
    {
        None => Err(NoValue),
        Some(value) => Ok(show(vm.world(), value)?),
    }
}

// Whether an attribute was there.
fn attribute_out(vm: &mut VirtualMachine) -> Result<bool, ClassFault> {
    let class = simple(vm, "E")?;
    let name = vm.world().known(Known::Qualname);
    let none = vm.world().fixed(Fixed::None);
    vm.set_attr(class, name, none)?;
    vm.del_attr_direct(class, name)
}

// Whether a class is below another one, and whether it still is once it has that one's base.
fn rebased<L: Ledger>(vm: &mut VirtualMachine, blank: Blank) -> Result<(bool, bool), NoValue>
    requires name { blank.name ≡ L.name }
    requires parts { blank.parts ≡ L.parts }
    requires both { 2 ≤ L.parts }
{
    let left = simple(vm, "L")?;
    let right = vm.new_simple_heap("R", left)?;
    let was_below = vm.world().is_sub(right, left);
    let bases = one_class(vm.world().alloc(), vm.world().built_in(BuiltIn::Object))?;
    let mut steps = Steps::<L>::new(blank);
    vm.set_bases(right, bases, &mut steps)?;
    Ok((was_below, vm.world().is_sub(right, left)))
}

// The same, whose merges and slots are counted by this call alone.
fn counted(vm: &mut VirtualMachine) -> Result<(bool, bool), NoValue> {
    rebased::<Brand>(vm, Blank::new(2))
}

// Whether a class has the method that it gets.
fn extended(vm: &mut VirtualMachine) -> Result<bool, NoValue> {
    let upper = NativeEntry::OfStr(StrNative::Upper);
    let alloc = vm.world().alloc();
    let def = PyMethodDef::new_const(alloc, "upper", upper, PyMethodFlags::METHOD, None)?;
    let class = simple(vm, "F")?;
    vm.extend_methods(class, &[def])?;
    let name = vm.intern("upper")?;
    Ok(vm.world().own_attr(class, name).is_some())
}
