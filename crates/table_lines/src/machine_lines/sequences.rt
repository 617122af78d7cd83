//! What a machine is asked of objects as sequences.

ghost use Rattle.std.specs.Prelude.{ℕ, [], ◌∷◌, IfOk};
ghost use Rattle.vm_eval.specs.Asks.{of_done};
ghost use Rattle.class_world.specs.Sound.{AllHold, Holds, IsNode, of_node_ref};

use crate::machine_lines::asking::{UNITS, done, object, shown};
use crate::{NoValue, Table};
use py_node::{PyObjectRef, PyResult};
use vm_calls::protocols::PySequence;
use vm_calls::sequence::{
    concat, contains, count, del_item, del_slice, extract, get_item, get_slice, index,
    inplace_concat, inplace_repeat, length, length_opt, list, repeat, set_item, set_slice, tuple,
};
use vm_eval::{RunFault, VirtualMachine};

pub fn put(table: &mut Table, vm: &mut VirtualMachine) {
    put_questions(table, vm);
    put_new(table, vm);
    put_changes(table, vm);
}

fn put_questions(table: &mut Table, vm: &mut VirtualMachine) {
    table.put("sequence::length", told(vm, length));
    table.put("sequence::length_opt", told(vm, length_opt));
    table.put("sequence::count", told_of_one(vm, count));
    table.put("sequence::index", told_of_one(vm, index));
    table.put("sequence::contains", told_of_one(vm, contains));
    table.put("sequence::extract", extracted(vm));
    table.put_text("sequence::get_item", item(vm));
}

fn put_new(table: &mut Table, vm: &mut VirtualMachine) {
    table.put_text("sequence::tuple", given(vm, tuple));
    table.put_text("sequence::list", given(vm, list));
    table.put_text("sequence::get_slice", slice(vm));
    table.put_text("sequence::concat", joined(vm));
    table.put_text("sequence::repeat", repeated(vm));
}

// Each is put after the list as it is then.
fn put_changes(table: &mut Table, vm: &mut VirtualMachine) {
    table.put("sequence::set_item", item_set(vm));
    table.put_text("sequence::set_item", given(vm, list));
    table.put("sequence::del_item", item_deleted(vm));
    table.put_text("sequence::del_item", given(vm, list));
    table.put_text("sequence::inplace_concat", joined_in_place(vm));
    table.put_text("sequence::inplace_repeat", repeated_in_place(vm));
    table.put("sequence::set_slice", slice_set(vm));
    table.put_text("sequence::set_slice", given(vm, list));
    table.put("sequence::del_slice", slice_deleted(vm));
    table.put_text("sequence::del_slice", given(vm, list));
}

// The list as a sequence.
fn view(vm: &VirtualMachine) -> PySequence
    ensures { Holds vm.now.world (IsNode result.obj) }
{
    PySequence::new(vm.world(), object(vm, "items"))
}

// What a call tells of the list.
fn told<T: Drop, F>(vm: &mut VirtualMachine, call: F) -> Result<T, NoValue>
where
    F: FnOnce(&mut VirtualMachine, &PySequence, u64) -> Result<PyResult<T>, RunFault>,
    requires { (m : _) (v : _) (n : ℕ) → AllHold m.now.world (IsNode v.now.obj ∷ []) → F.pre call m v n }
{
    let view = view(vm);
    done(call(vm, &view, UNITS))
}

// What a call tells of the list and one of its items.
fn told_of_one<T: Drop, F>(vm: &mut VirtualMachine, call: F) -> Result<T, NoValue>
where
    F: FnOnce(&mut VirtualMachine, &PySequence, PyObjectRef, u64) -> Result<PyResult<T>, RunFault>,
    requires { (m : _) (v : _) (x : _) (n : ℕ) → AllHold m.now.world (IsNode v.now.obj ∷ IsNode x ∷ []) →
        F.pre call m v x n }
{
    let one = object(vm, "one");
    let view = view(vm);
    done(call(vm, &view, one, UNITS))
}

// The text of the object that a call gives for the list.
fn given<F>(vm: &mut VirtualMachine, call: F) -> Result<String, NoValue>
where
    F: FnOnce(&mut VirtualMachine, &PySequence, u64) -> Result<PyResult<PyObjectRef>, RunFault>,
    requires pre { (m : _) (v : _) (n : ℕ) → AllHold m.now.world (IsNode v.now.obj ∷ []) → F.pre call m v n }
    requires post { (m : _) (v : _) (n : ℕ) (r : _) (k : _) → F.post call m v n r k →
        IfOk r (λ told. AllHold k.now.world (of_done of_node_ref told)) }
{
    let view = view(vm);
    let told = call(vm, &view, UNITS);
    shown(vm, told)
}

// How many items are told.
fn extracted(vm: &mut VirtualMachine) -> Result<usize, NoValue> {
    Ok(told(vm, extract)?.len())
}

fn item(vm: &mut VirtualMachine) -> Result<String, NoValue> {
    let view = view(vm);
    let told = get_item(vm, &view, 1, UNITS);
    shown(vm, told)
}

fn slice(vm: &mut VirtualMachine) -> Result<String, NoValue> {
    let view = view(vm);
    let told = get_slice(vm, &view, 1, 3, UNITS);
    shown(vm, told)
}

fn joined(vm: &mut VirtualMachine) -> Result<String, NoValue> {
    let (view, items) = (view(vm), object(vm, "items"));
    let told = concat(vm, &view, items, UNITS);
    shown(vm, told)
}

fn repeated(vm: &mut VirtualMachine) -> Result<String, NoValue> {
    let view = view(vm);
    let told = repeat(vm, &view, 2, UNITS);
    shown(vm, told)
}

fn item_set(vm: &mut VirtualMachine) -> Result<(), NoValue> {
    let (view, value) = (view(vm), object(vm, "a"));
    done(set_item(vm, &view, 0, value, UNITS))
}

fn item_deleted(vm: &mut VirtualMachine) -> Result<(), NoValue> {
    let view = view(vm);
    done(del_item(vm, &view, 1, UNITS))
}

fn joined_in_place(vm: &mut VirtualMachine) -> Result<String, NoValue> {
    let (view, items) = (view(vm), object(vm, "items"));
    let told = inplace_concat(vm, &view, items, UNITS);
    shown(vm, told)
}

fn repeated_in_place(vm: &mut VirtualMachine) -> Result<String, NoValue> {
    let view = view(vm);
    let told = inplace_repeat(vm, &view, 2, UNITS);
    shown(vm, told)
}

// The first seven items give way to those of the list itself.
fn slice_set(vm: &mut VirtualMachine) -> Result<(), NoValue> {
    let (view, items) = (view(vm), object(vm, "items"));
    done(set_slice(vm, &view, 0, 7, items, UNITS))
}

fn slice_deleted(vm: &mut VirtualMachine) -> Result<(), NoValue> {
    let view = view(vm);
    done(del_slice(vm, &view, 2, 9, UNITS))
}
