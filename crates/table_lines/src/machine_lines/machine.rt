//! A machine: what it answers commands, and what a host makes in its world.

ghost use Rattle.std.specs.Prelude.{IfOk};
ghost use Rattle.class_world.specs.Sound.{Holds, IsClass};

use crate::lists::{no_names, one_class};
use crate::machine_lines::asking::{UNITS, bind_variables};
use crate::{NoValue, Table};
use class_table::ClassFault;
use class_world::Fixed;
use py_node::{
    Answer, BuiltIn, Constant, Expr, Known, OperatorTask, OutOfMemory, Payload, PyAttributes,
    PyResult, PyTypeRef, SlotEntry, SlotId, Task,
};
use std::alloc::Global;
use vm_eval::{RunFault, VirtualMachine};
use world_text::show::show;

pub fn put(table: &mut Table, vm: &mut VirtualMachine, alloc: Global) {
    table.tell("VirtualMachine::new", &vm.has_failed());
    table.put("VirtualMachine::run", bind_variables(vm, alloc));
    table.put_text("VirtualMachine::ask", asked(vm));
    table.put_text("VirtualMachine::intern", interned(vm));
    table.put("VirtualMachine::add_expr", stored(vm));
    table.put_text("VirtualMachine::make_node", made_number(vm));
    table.put_text("VirtualMachine::new_heap", made_class(vm));
    table.put("VirtualMachine::new_heap_slots", without_dict(vm));
    table.put_text("VirtualMachine::set_attr", attribute(vm));
    table.put("VirtualMachine::fail", given_up(alloc));
}

// The sum of True and True.
fn asked(vm: &mut VirtualMachine) -> Result<String, NoValue> {
    let one = vm.world().truth(true);
    match vm.ask(Task::Operator(OperatorTask::Add(one, one)), UNITS)? {
        PyResult::Done(Answer::Value(sum)) => Ok(show(vm.world(), sum)?),
        _ => Err(NoValue),
    }
}

// A text that no machine knows.
fn interned(vm: &mut VirtualMachine) -> Result<String, OutOfMemory> {
    let name = vm.intern("a name")?;
    vm.world().spelling(name)
}

// Whether a constant is an expression of the world then.
fn stored(vm: &mut VirtualMachine) -> Result<bool, OutOfMemory> {
    let expr = vm.add_expr(&Expr::Const(Constant::True))?;
    Ok(vm.world().is_expression(expr))
}

fn made_number(vm: &mut VirtualMachine) -> Result<String, NoValue> {
    let class = vm.world().built_in(BuiltIn::Int);
    let number = vm.make_node(class, Payload::Number(33))?;
    Ok(show(vm.world(), number)?)
}

// A class below `object`.
fn class(vm: &mut VirtualMachine) -> Result<PyTypeRef, ClassFault>
    ensures { IfOk result (λ c. Holds vm.new.world (IsClass c.0)) }
{
    let alloc = vm.world().alloc();
    let metaclass = vm.world().built_in(BuiltIn::TypeType);
    let bases = one_class(alloc, vm.world().built_in(BuiltIn::Object))?;
    let attrs = PyAttributes::new(alloc);
    vm.new_heap("C", bases, attrs, no_names(alloc), metaclass)
}

// Whether the objects of a class with empty `__slots__` have a dict.
fn without_dict(vm: &mut VirtualMachine) -> Result<bool, NoValue> {
    let alloc = vm.world().alloc();
    let metaclass = vm.world().built_in(BuiltIn::TypeType);
    let bases = one_class(alloc, vm.world().built_in(BuiltIn::Object))?;
    let attrs = PyAttributes::new(alloc);
    let class = vm.new_heap_slots("E", bases, attrs, Some(no_names(alloc)), metaclass)?;
    Ok(vm.world().has_dict(class))
}

fn made_class(vm: &mut VirtualMachine) -> Result<String, NoValue> {
    let class = class(vm)?;
    Ok(show(vm.world(), vm.world().class_node(class))?)
}

// An attribute of a class, read again.
fn attribute(vm: &mut VirtualMachine) -> Result<String, NoValue> {
    let class = class(vm)?;
    let name = vm.world().known(Known::Qualname);
    let none = vm.world().fixed(Fixed::None);
    vm.set_attr(class, name, none)?;
    match vm
        .world()
        .own_attr(class, vm.world().known(Known::Qualname))
    {
        None => Err(NoValue),
        Some(value) => Ok(show(vm.world(), value)?),
    }
}

// Of a machine that has failed: whether it runs no command, and whether a class's late attribute, the slot that this fills
// and what the class derives from are told as before.
fn given_up(alloc: Global) -> Result<(bool, bool, bool, bool), NoValue> {
    let mut vm = VirtualMachine::new(alloc)?;
    let class = class(&mut vm)?;
    let (name, none) = (vm.world().known(Known::Add), vm.world().fixed(Fixed::None));
    vm.set_attr(class, name, none)?;
    vm.fail();
    let is_refused = matches!(vm.run(&[], UNITS), Err(RunFault::Failed));
    let world = vm.world();
    Ok((
        is_refused,
        world.class_attr(class, name) == Some(none),
        world.class_slot(class, SlotId::Add) == Some(SlotEntry::Wrapper(SlotId::Add)),
        world.is_sub(class, world.built_in(BuiltIn::Object)),
    ))
}
