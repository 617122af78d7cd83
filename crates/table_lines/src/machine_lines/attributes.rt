//! What a machine is asked for of attributes, and calls.

ghost use Rattle.std.specs.Prelude.{IfOk};
ghost use Rattle.class_world.specs.Claims.{of_method};
ghost use Rattle.class_world.specs.Sound.{AllHold, Holds, IsName};

use crate::machine_lines::asking::{UNITS, done, object, shown};
use crate::{NoValue, Table};
use class_world::args::alone;
use py_node::{Known, PyMethod, PyObjectRef, PyResult, PySetterValue, PyStrInterned};
use std::alloc::Global;
use vm_calls::{
    call, call_set_attr, call_with_args, del_attr, generic_getattr, generic_getattr_opt,
    generic_setattr, get_attr, has_attr_obj, invoke, invoke_ref, method_get, set_attr_obj,
};
use vm_eval::VirtualMachine;
use world_text::show::show;

pub fn put(table: &mut Table, vm: &mut VirtualMachine, alloc: Global) {
    table.put_text("vm_calls::get_attr", got(vm));
    table.put("vm_calls::has_attr_obj", has(vm));
    table.put("vm_calls::set_attr_obj", set(vm));
    table.put("vm_calls::del_attr", deleted(vm));
    table.put("vm_calls::call_set_attr", set_by_value(vm));
    table.put("vm_calls::generic_setattr", set_plainly(vm));
    table.put_text("vm_calls::generic_getattr", got_plainly(vm));
    table.put("vm_calls::generic_getattr_opt", got_or_not(vm));
    table.put_text("vm_calls::method_get", loaded(vm));
    table.put_text("vm_calls::invoke", invoked(vm, alloc));
    table.put_text("vm_calls::invoke_ref", invoked_again(vm, alloc));
    table.put_text("vm_calls::call", called(vm, alloc));
    table.put_text("vm_calls::call_with_args", called_with_args(vm, alloc));
}

// The name of a text that the machine knows; that of a known name where it doesn't.
fn name(vm: &VirtualMachine, text: &str) -> PyStrInterned
    ensures { Holds vm.now.world (IsName result) }
{
    match vm.world().names().interned_str(text) {
        Some(name) if vm.world().is_name(name) => name,
        _ => vm.world().known(Known::Qualname),
    }
}

fn got(vm: &mut VirtualMachine) -> Result<String, NoValue> {
    let (object, name) = (object(vm, "o"), name(vm, "x"));
    let told = get_attr(vm, object, name, UNITS);
    shown(vm, told)
}

fn has(vm: &mut VirtualMachine) -> Result<bool, NoValue> {
    let (object, name) = (object(vm, "o"), name(vm, "x"));
    done(has_attr_obj(vm, object, name, UNITS))
}

// The object gets an attribute of its own.
fn set(vm: &mut VirtualMachine) -> Result<(), NoValue> {
    let (name, value) = (name(vm, "x"), object(vm, "a"));
    let object = object(vm, "o");
    done(set_attr_obj(vm, object, name, value, UNITS))
}

// It is taken out again.
fn deleted(vm: &mut VirtualMachine) -> Result<(), NoValue> {
    let (object, name) = (object(vm, "o"), name(vm, "x"));
    done(del_attr(vm, object, name, UNITS))
}

// The class of the object gets another value.
fn set_by_value(vm: &mut VirtualMachine) -> Result<(), NoValue> {
    let value = PySetterValue::Assign(object(vm, "b"));
    let (class, name) = (object(vm, "A"), name(vm, "x"));
    done(call_set_attr(vm, class, name, value, UNITS))
}

fn set_plainly(vm: &mut VirtualMachine) -> Result<(), NoValue> {
    let value = PySetterValue::Assign(object(vm, "one"));
    let (object, name) = (object(vm, "o"), name(vm, "x"));
    done(generic_setattr(vm, object, name, value, UNITS))
}

fn got_plainly(vm: &mut VirtualMachine) -> Result<String, NoValue> {
    let (object, name) = (object(vm, "o"), name(vm, "x"));
    let told = generic_getattr(vm, object, name, UNITS);
    shown(vm, told)
}

// An attribute that is nowhere.
fn got_or_not(vm: &mut VirtualMachine) -> Result<Option<PyObjectRef>, NoValue> {
    let (object, name) = (object(vm, "o"), name(vm, "iterator"));
    done(generic_getattr_opt(vm, object, name, None, UNITS))
}

// A method of a list.
fn method(vm: &mut VirtualMachine) -> Result<PyMethod, NoValue>
    ensures { IfOk result (λ m. AllHold vm.new.world (of_method m)) }
{
    let (object, name) = (object(vm, "items"), name(vm, "__len__"));
    match method_get(vm, object, name, UNITS)? {
        PyResult::Done(method) => Ok(method),
        _ => Err(NoValue),
    }
}

// The object that a method is loaded with.
fn loaded(vm: &mut VirtualMachine) -> Result<String, NoValue> {
    match method(vm)? {
        PyMethod::Function { target, func: _ } => Ok(show(vm.world(), target)?),
        PyMethod::Attribute(_) => Err(NoValue),
    }
}

fn invoked(vm: &mut VirtualMachine, alloc: Global) -> Result<String, NoValue> {
    let method = method(vm)?;
    let told = invoke(vm, method, Vec::new(alloc), Vec::new(alloc), UNITS);
    shown(vm, told)
}

fn invoked_again(vm: &mut VirtualMachine, alloc: Global) -> Result<String, NoValue> {
    let method = method(vm)?;
    let told = invoke_ref(vm, &method, Vec::new(alloc), Vec::new(alloc), UNITS);
    shown(vm, told)
}

// A function of one argument.
fn called(vm: &mut VirtualMachine, alloc: Global) -> Result<String, NoValue> {
    let args = alone(alloc, object(vm, "a"))?;
    let double = object(vm, "double");
    let told = call(vm, double, args, Vec::new(alloc), UNITS);
    shown(vm, told)
}

fn called_with_args(vm: &mut VirtualMachine, alloc: Global) -> Result<String, NoValue> {
    let args = alone(alloc, object(vm, "b"))?;
    let double = object(vm, "double");
    let told = call_with_args(vm, double, args, Vec::new(alloc), UNITS);
    shown(vm, told)
}
