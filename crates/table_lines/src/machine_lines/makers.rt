//! The objects of native definitions that a host makes on a machine.

ghost use Rattle.std.specs.Prelude.{IfOk};
ghost use Rattle.class_world.specs.Sound.{Holds, IsNode};

use crate::{NoValue, Table};
use class_world::Fixed;
use proto_attr::native_defs::{PyMemberDef, PyMethodDef};
use py_node::{
    BuiltIn, MemberGetter, MemberKind, MemberSetter, NativeEntry, OutOfMemory, PyMethodFlags,
    PyObjectRef, StrNative,
};
use std::alloc::Global;
use vm_eval::VirtualMachine;
use world_text::show::show;

const UPPER: NativeEntry = NativeEntry::OfStr(StrNative::Upper);

pub fn put(table: &mut Table, vm: &mut VirtualMachine, alloc: Global) {
    match PyMethodDef::new_const(alloc, "upper", UPPER, PyMethodFlags::METHOD, None) {
        Ok(def) => put_made(table, vm, &def),
        Err(OutOfMemory) => table.end(),
    }
    table.put_text("VirtualMachine::new_member", member(vm));
    table.put_text("VirtualMachine::new_classmethod", class_method(vm));
    table.put_text("VirtualMachine::new_staticmethod", static_method(vm));
}

// What is made of a definition of `str.upper`.
fn put_made(table: &mut Table, vm: &mut VirtualMachine, def: &PyMethodDef) {
    table.put_text("VirtualMachine::build_function", function(vm, def));
    table.put_text(
        "VirtualMachine::build_bound_function",
        bound_function(vm, def),
    );
    table.put_text("VirtualMachine::build_method", method(vm, def));
    table.put_text("VirtualMachine::build_bound_method", bound_method(vm, def));
    table.put_text("VirtualMachine::build_classmethod", of_class(vm, def));
    table.put_text("VirtualMachine::build_staticmethod", of_none(vm, def));
    table.put_text("VirtualMachine::new_method_descriptor", bound(vm, def));
}

// The text of a new object.
fn told(vm: &VirtualMachine, made: Result<PyObjectRef, OutOfMemory>) -> Result<String, NoValue>
    requires { IfOk made (λ r. Holds vm.now.world (IsNode r)) }
{
    match made {
        Ok(node) => Ok(show(vm.world(), node)?),
        Err(OutOfMemory) => Err(NoValue),
    }
}

fn function(vm: &mut VirtualMachine, def: &PyMethodDef) -> Result<String, NoValue> {
    let made = vm.build_function(def);
    told(vm, made)
}

fn bound_function(vm: &mut VirtualMachine, def: &PyMethodDef) -> Result<String, NoValue> {
    let none = vm.world().fixed(Fixed::None);
    let made = vm.build_bound_function(def, none);
    told(vm, made)
}

fn method(vm: &mut VirtualMachine, def: &PyMethodDef) -> Result<String, NoValue> {
    let class = vm.world().built_in(BuiltIn::Str);
    let made = vm.build_method(def, class);
    told(vm, made)
}

fn bound_method(vm: &mut VirtualMachine, def: &PyMethodDef) -> Result<String, NoValue> {
    let class = vm.world().built_in(BuiltIn::Str);
    let none = vm.world().fixed(Fixed::None);
    let made = vm.build_bound_method(def, none, class);
    told(vm, made)
}

fn of_class(vm: &mut VirtualMachine, def: &PyMethodDef) -> Result<String, NoValue> {
    let class = vm.world().built_in(BuiltIn::Str);
    let made = vm.build_classmethod(def, class);
    told(vm, made)
}

fn of_none(vm: &mut VirtualMachine, def: &PyMethodDef) -> Result<String, NoValue> {
    let class = vm.world().built_in(BuiltIn::Str);
    let made = vm.build_staticmethod(def, class);
    told(vm, made)
}

// A method that is made by its parts, and then bound.
fn bound(vm: &mut VirtualMachine, def: &PyMethodDef) -> Result<String, NoValue> {
    let class = vm.world().built_in(BuiltIn::Str);
    let method = vm.new_method_descriptor(def, class)?;
    let none = vm.world().fixed(Fixed::None);
    let made = vm.bind_method(method, none);
    told(vm, made)
}

// A member of `str` that a native reads and that nothing sets.
fn member(vm: &mut VirtualMachine) -> Result<String, NoValue> {
    let class = vm.world().built_in(BuiltIn::Str);
    let member = PyMemberDef {
        name: String::from_str(vm.world().alloc(), "capitals")?,
        kind: MemberKind::ObjectEx,
        getter: MemberGetter::Getter(UPPER),
        setter: MemberSetter::Setter(None),
        doc: None,
    };
    let made = vm.new_member(class, member);
    told(vm, made)
}

fn class_method(vm: &mut VirtualMachine) -> Result<String, NoValue> {
    let callable = vm.world().built_in_node(BuiltIn::Int);
    let made = vm.new_classmethod(callable);
    told(vm, made)
}

fn static_method(vm: &mut VirtualMachine) -> Result<String, NoValue> {
    let callable = vm.world().built_in_node(BuiltIn::Int);
    let made = vm.new_staticmethod(callable);
    told(vm, made)
}
