//! What a machine is asked of objects as mappings, as numbers and as what can be called.

ghost use Rattle.std.specs.Prelude.{ℕ, [], ◌∷◌, IfOk};
ghost use Rattle.vm_eval.specs.Asks.{of_done};
ghost use Rattle.class_world.specs.Sound.{AllHold, Holds, IsNode, of_node_ref};

use crate::machine_lines::asking::{UNITS, done, object, shown};
use crate::{NoValue, Table};
use class_world::args::alone;
use py_node::{PyObjectRef, PyResult};
use std::alloc::Global;
use vm_calls::mapping::{ass_subscript, items, keys, length, length_opt, subscript, values};
use vm_calls::protocols::{PyCallable, PyMapping, PyNumber, PySequence};
use vm_calls::{callable, number};
use vm_eval::{RunFault, VirtualMachine};

pub fn put(table: &mut Table, vm: &mut VirtualMachine, alloc: Global) {
    put_views(table, vm);
    put_mappings(table, vm);
    table.put("number::int", is_its_int(vm));
    table.put("number::index", is_its_index(vm));
    table.put_text("callable::invoke", invoked(vm, alloc));
}

fn put_views(table: &mut Table, vm: &VirtualMachine) {
    let (items, pairs) = (object(vm, "items"), object(vm, "pairs"));
    let sequence = PySequence::try_protocol(vm.world(), items).is_ok();
    table.tell("PySequence::try_protocol", &sequence);
    let mapping = PyMapping::try_protocol(vm.world(), pairs).is_ok();
    table.tell("PyMapping::try_protocol", &mapping);
}

fn put_mappings(table: &mut Table, vm: &mut VirtualMachine) {
    table.put("mapping::ass_subscript", item_set(vm));
    table.put_text("mapping::subscript", item(vm));
    table.put_text("mapping::keys", given(vm, keys));
    table.put_text("mapping::values", given(vm, values));
    table.put_text("mapping::items", given(vm, items));
    table.put("mapping::length", told(vm, length));
    table.put("mapping::length_opt", told(vm, length_opt));
}

// The dict as a mapping.
fn view(vm: &VirtualMachine) -> PyMapping
    ensures { Holds vm.now.world (IsNode result.obj) }
{
    PyMapping::new(vm.world(), object(vm, "pairs"))
}

// What a call tells of the dict.
fn told<T: Drop, F>(vm: &mut VirtualMachine, call: F) -> Result<T, NoValue>
where
    F: FnOnce(&mut VirtualMachine, &PyMapping, u64) -> Result<PyResult<T>, RunFault>,
    requires { (m : _) (v : _) (n : ℕ) → AllHold m.now.world (IsNode v.now.obj ∷ []) → F.pre call m v n }
{
    let view = view(vm);
    done(call(vm, &view, UNITS))
}

// The text of the object that a call gives for the dict.
fn given<F>(vm: &mut VirtualMachine, call: F) -> Result<String, NoValue>
where
    F: FnOnce(&mut VirtualMachine, &PyMapping, u64) -> Result<PyResult<PyObjectRef>, RunFault>,
    requires pre { (m : _) (v : _) (n : ℕ) → AllHold m.now.world (IsNode v.now.obj ∷ []) → F.pre call m v n }
    requires post { (m : _) (v : _) (n : ℕ) (r : _) (k : _) → F.post call m v n r k →
        IfOk r (λ told. AllHold k.now.world (of_done of_node_ref told)) }
{
    let view = view(vm);
    let told = call(vm, &view, UNITS);
    shown(vm, told)
}

fn item_set(vm: &mut VirtualMachine) -> Result<(), NoValue> {
    let (view, key, value) = (view(vm), object(vm, "key"), object(vm, "b"));
    done(ass_subscript(vm, &view, key, Some(value), UNITS))
}

fn item(vm: &mut VirtualMachine) -> Result<String, NoValue> {
    let (view, key) = (view(vm), object(vm, "key"));
    let told = subscript(vm, &view, key, UNITS);
    shown(vm, told)
}

// Whether a number is the whole number that it has.
fn is_its_int(vm: &mut VirtualMachine) -> Result<bool, NoValue> {
    let a = object(vm, "a");
    let view = PyNumber::new(vm.world(), a);
    Ok(done(number::int(vm, &view, UNITS))? == Some(a))
}

// Whether it is the index that it has.
fn is_its_index(vm: &mut VirtualMachine) -> Result<bool, NoValue> {
    let a = object(vm, "a");
    let view = PyNumber::new(vm.world(), a);
    Ok(done(number::index(vm, &view, UNITS))? == Some(a))
}

// A function of one argument, as something that can be called.
fn invoked(vm: &mut VirtualMachine, alloc: Global) -> Result<String, NoValue> {
    let args = alone(alloc, object(vm, "a"))?;
    let double = object(vm, "double");
    match PyCallable::new(vm.world(), double) {
        None => Err(NoValue),
        Some(view) => {
            let told = callable::invoke(vm, &view, args, Vec::new(alloc), UNITS);
            shown(vm, told)
        }
    }
}
