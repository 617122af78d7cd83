//! What a machine is asked of objects: comparisons, truth, numbers, lengths, items, texts and classes.

use crate::machine_lines::asking::{
    UNITS, done, object, of_one, of_two, shown, told_of_one, told_of_two,
};
use crate::{NoValue, Table};
use py_node::{Answer, PyComparisonOp, PyResult};
use vm_calls::{
    _contains, bool_eq, bool_seq_gt, bool_seq_lt, del_item, dir, format, get_item, get_iter, hash,
    identical_or_equal, is_instance, is_subclass, is_true, length, length_hint, length_hint_opt,
    length_opt, next, not, repr, rich_compare, rich_compare_bool, set_item, str, try_index,
    try_index_opt, try_int,
};
use vm_eval::VirtualMachine;
use world_text::show::show;

pub fn put(table: &mut Table, vm: &mut VirtualMachine) {
    put_comparisons(table, vm);
    put_numbers(table, vm);
    put_items(table, vm);
    put_objects(table, vm);
}

fn put_comparisons(table: &mut Table, vm: &mut VirtualMachine) {
    table.put_text("vm_calls::rich_compare", compared(vm));
    table.put("vm_calls::rich_compare_bool", is_greater(vm));
    table.put("vm_calls::bool_eq", told_of_two(vm, "a", "b", bool_eq));
    table.put(
        "vm_calls::identical_or_equal",
        told_of_two(vm, "o", "o", identical_or_equal),
    );
    table.put(
        "vm_calls::bool_seq_lt",
        told_of_two(vm, "a", "b", bool_seq_lt),
    );
    table.put(
        "vm_calls::bool_seq_gt",
        told_of_two(vm, "a", "b", bool_seq_gt),
    );
}

fn put_numbers(table: &mut Table, vm: &mut VirtualMachine) {
    table.put("vm_calls::is_true", told_of_one(vm, "a", is_true));
    table.put("vm_calls::not", told_of_one(vm, "a", not));
    table.put("vm_calls::hash", told_of_one(vm, "a", hash));
    table.put_text("vm_calls::try_index", of_one(vm, "a", try_index));
    table.put("vm_calls::try_index_opt", is_its_index(vm));
    table.put_text("vm_calls::try_int", of_one(vm, "a", try_int));
    table.put("vm_calls::length", told_of_one(vm, "items", length));
    table.put("vm_calls::length_opt", told_of_one(vm, "items", length_opt));
    table.put("vm_calls::length_hint", hint(vm));
    table.put(
        "vm_calls::length_hint_opt",
        told_of_one(vm, "items", length_hint_opt),
    );
}

fn put_items(table: &mut Table, vm: &mut VirtualMachine) {
    table.put_text("vm_calls::get_item", of_two(vm, "pairs", "key", get_item));
    table.put("vm_calls::set_item", item_set(vm));
    table.put(
        "vm_calls::del_item",
        told_of_two(vm, "pairs", "key", del_item),
    );
    table.put(
        "vm_calls::_contains",
        told_of_two(vm, "items", "one", _contains),
    );
    table.put_text("vm_calls::get_iter", of_one(vm, "items", get_iter));
    table.put_text("vm_calls::next", next_item(vm));
}

fn put_objects(table: &mut Table, vm: &mut VirtualMachine) {
    table.put_text("vm_calls::repr", of_one(vm, "key", repr));
    table.put_text("vm_calls::str", of_one(vm, "a", str));
    table.put_text("vm_calls::format", of_two(vm, "a", "empty", format));
    table.put("vm_calls::dir", has_name(vm));
    table.put(
        "vm_calls::is_instance",
        told_of_two(vm, "o", "A", is_instance),
    );
    table.put(
        "vm_calls::is_subclass",
        told_of_two(vm, "A", "A", is_subclass),
    );
}

fn compared(vm: &mut VirtualMachine) -> Result<String, NoValue> {
    let (a, b) = (object(vm, "a"), object(vm, "b"));
    let told = rich_compare(vm, a, b, PyComparisonOp::Lt, UNITS);
    shown(vm, told)
}

fn is_greater(vm: &mut VirtualMachine) -> Result<bool, NoValue> {
    let (a, b) = (object(vm, "a"), object(vm, "b"));
    done(rich_compare_bool(vm, a, b, PyComparisonOp::Gt, UNITS))
}

// Whether a number is the index that it has.
fn is_its_index(vm: &mut VirtualMachine) -> Result<bool, NoValue> {
    let number = object(vm, "a");
    Ok(done(try_index_opt(vm, number, UNITS))? == Some(number))
}

// A number has no length, so that the hint is the one that is given.
fn hint(vm: &mut VirtualMachine) -> Result<usize, NoValue> {
    let number = object(vm, "a");
    done(length_hint(vm, number, 7, UNITS))
}

fn item_set(vm: &mut VirtualMachine) -> Result<(), NoValue> {
    let (pairs, key, value) = (object(vm, "pairs"), object(vm, "key"), object(vm, "a"));
    done(set_item(vm, pairs, key, value, UNITS))
}

fn next_item(vm: &mut VirtualMachine) -> Result<String, NoValue> {
    let iterator = object(vm, "iterator");
    match next(vm, iterator, UNITS)? {
        PyResult::Done(Answer::Value(item)) => Ok(show(vm.world(), item)?),
        _ => Err(NoValue),
    }
}

// Whether the names of an object's attributes have that of one of its class.
fn has_name(vm: &mut VirtualMachine) -> Result<bool, NoValue> {
    let object_of_a = object(vm, "o");
    match dir(vm, object_of_a, UNITS)? {
        PyResult::Done(names) => {
            let key = object(vm, "key");
            done(_contains(vm, names, key, UNITS))
        }
        _ => Err(NoValue),
    }
}
