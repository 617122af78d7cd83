//! What a machine gives for operators.

use crate::machine_lines::asking::{UNITS, object, of_one, of_two, shown};
use crate::{NoValue, Table};
use py_node::PyNumberBinaryOp;
use vm_calls::{
    _abs, _add, _and, _divmod, _floordiv, _iadd, _iand, _ifloordiv, _ilshift, _imatmul, _imod,
    _imul, _invert, _ior, _ipow, _irshift, _isub, _itruediv, _ixor, _lshift, _matmul, _mod, _mul,
    _neg, _or, _pos, _pow, _rshift, _sub, _truediv, _xor, binary_op, binary_op1,
};
use vm_eval::VirtualMachine;

pub fn put(table: &mut Table, vm: &mut VirtualMachine) {
    put_of_one(table, vm);
    put_of_two(table, vm);
    put_bits(table, vm);
    put_in_place(table, vm);
    put_bits_in_place(table, vm);
    table.put_text("vm_calls::_pow", power(vm));
    table.put_text("vm_calls::_ipow", power_in_place(vm));
    table.put_text("vm_calls::binary_op", by_operator(vm));
    table.put_text("vm_calls::binary_op1", by_candidates(vm));
}

fn put_of_one(table: &mut Table, vm: &mut VirtualMachine) {
    table.put_text("vm_calls::_neg", of_one(vm, "a", _neg));
    table.put_text("vm_calls::_pos", of_one(vm, "a", _pos));
    table.put_text("vm_calls::_abs", of_one(vm, "a", _abs));
    table.put_text("vm_calls::_invert", of_one(vm, "a", _invert));
}

fn put_of_two(table: &mut Table, vm: &mut VirtualMachine) {
    table.put_text("vm_calls::_add", of_two(vm, "a", "b", _add));
    table.put_text("vm_calls::_sub", of_two(vm, "a", "b", _sub));
    table.put_text("vm_calls::_mul", of_two(vm, "a", "b", _mul));
    table.put_text("vm_calls::_mod", of_two(vm, "a", "b", _mod));
    table.put_text("vm_calls::_divmod", of_two(vm, "a", "b", _divmod));
    table.put_text("vm_calls::_floordiv", of_two(vm, "a", "b", _floordiv));
    table.put_text("vm_calls::_truediv", of_two(vm, "o", "b", _truediv));
    table.put_text("vm_calls::_matmul", of_two(vm, "o", "b", _matmul));
}

fn put_bits(table: &mut Table, vm: &mut VirtualMachine) {
    table.put_text("vm_calls::_lshift", of_two(vm, "a", "b", _lshift));
    table.put_text("vm_calls::_rshift", of_two(vm, "a", "one", _rshift));
    table.put_text("vm_calls::_and", of_two(vm, "a", "b", _and));
    table.put_text("vm_calls::_xor", of_two(vm, "a", "b", _xor));
    table.put_text("vm_calls::_or", of_two(vm, "a", "b", _or));
}

fn put_in_place(table: &mut Table, vm: &mut VirtualMachine) {
    table.put_text("vm_calls::_iadd", of_two(vm, "a", "b", _iadd));
    table.put_text("vm_calls::_isub", of_two(vm, "a", "b", _isub));
    table.put_text("vm_calls::_imul", of_two(vm, "a", "b", _imul));
    table.put_text("vm_calls::_imod", of_two(vm, "a", "b", _imod));
    table.put_text("vm_calls::_ifloordiv", of_two(vm, "a", "b", _ifloordiv));
    table.put_text("vm_calls::_itruediv", of_two(vm, "o", "b", _itruediv));
    table.put_text("vm_calls::_imatmul", of_two(vm, "o", "b", _imatmul));
}

fn put_bits_in_place(table: &mut Table, vm: &mut VirtualMachine) {
    table.put_text("vm_calls::_ilshift", of_two(vm, "a", "b", _ilshift));
    table.put_text("vm_calls::_irshift", of_two(vm, "a", "one", _irshift));
    table.put_text("vm_calls::_iand", of_two(vm, "a", "b", _iand));
    table.put_text("vm_calls::_ixor", of_two(vm, "a", "b", _ixor));
    table.put_text("vm_calls::_ior", of_two(vm, "a", "b", _ior));
}

// 13 to the fourth power. A variable that isn't there stands for None: there is no modulus.
fn power(vm: &mut VirtualMachine) -> Result<String, NoValue> {
    let (a, b, none) = (object(vm, "a"), object(vm, "b"), object(vm, ""));
    let told = _pow(vm, a, b, none, UNITS);
    shown(vm, told)
}

fn power_in_place(vm: &mut VirtualMachine) -> Result<String, NoValue> {
    let (a, b, none) = (object(vm, "a"), object(vm, "b"), object(vm, ""));
    let told = _ipow(vm, a, b, none, UNITS);
    shown(vm, told)
}

fn by_operator(vm: &mut VirtualMachine) -> Result<String, NoValue> {
    let (a, b) = (object(vm, "a"), object(vm, "b"));
    let told = binary_op(vm, PyNumberBinaryOp::Subtract, a, b, UNITS);
    shown(vm, told)
}

// What the candidates give of which none knows its operands.
fn by_candidates(vm: &mut VirtualMachine) -> Result<String, NoValue> {
    let (a, b) = (object(vm, "key"), object(vm, "b"));
    let told = binary_op1(vm, PyNumberBinaryOp::Subtract, a, b, UNITS);
    shown(vm, told)
}
