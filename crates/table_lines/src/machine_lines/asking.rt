//! A machine with some variables, and how it is asked about the objects that they hold.

ghost use Rattle.std.specs.Prelude.{ℕ, [], ◌∷◌, IfOk};
ghost use Rattle.py_node.specs.declared.refs.PyObjectRef.{PyObjectRef as Object};
ghost use Rattle.vm_eval.specs.Asks.{of_done};
ghost use Rattle.class_world.specs.Sound.{AllHold, Holds, IsNode, of_node_ref};

use crate::NoValue;
use class_world::Fixed;
use py_node::{PyObjectRef, PyResult};
use script_text::read_script;
use std::alloc::Global;
use vm_eval::{RunFault, VirtualMachine};
use world_text::show::show;

/// How many units each question may spend.
pub const UNITS: u64 = 1000;

// Numbers, texts, containers, an iterator, a function, and a class with an object.
const SCRIPT: &[u8] =
    br#"[["bind","a",13],["bind","b",4],["bind","one",1],["bind","key","x"],["bind","empty",""],
["bind","items",["list",1,2,3]],["bind","pairs",["dict",["x",1]]],["bind","iterator",["op","iter",["name","items"]]],
["bind","double",["func","double",["n"],["op","+",["name","n"],["name","n"]]]],
["bind","A",["class","A",[],[["x",5],["twice",["func","twice",["s"],8]],["__truediv__",["func","t",["s","o"],6]],["__matmul__",["func","m",["s","o"],7]]]]],
["bind","o",["call",["name","A"],[]]]]"#;

/// Binds the variables, and tells how many commands that took.
pub fn bind_variables(vm: &mut VirtualMachine, alloc: Global) -> Result<usize, NoValue> {
    let commands = read_script(alloc, SCRIPT)?;
    Ok(vm.run(&commands, UNITS)?.len())
}

/// The object that a variable holds; None where there is no such variable.
pub fn object(vm: &VirtualMachine, name: &str) -> PyObjectRef
    ensures { Holds vm.now.world (IsNode result) }
{
    let world = vm.world();
    match world.names().interned_str(name) {
        Some(name) if world.is_name(name) => match world.variable(name) {
            Some(object) => object,
            None => world.fixed(Fixed::None),
        },
        _ => world.fixed(Fixed::None),
    }
}

/// The text of the object that a call gave.
pub fn shown(
    vm: &VirtualMachine,
    told: Result<PyResult<PyObjectRef>, RunFault>,
) -> Result<String, NoValue>
    requires { IfOk told (λ r. AllHold vm.now.world (of_done of_node_ref r)) }
{
    match told {
        Ok(PyResult::Done(object)) => Ok(show(vm.world(), object)?),
        _ => Err(NoValue),
    }
}

/// What a call gave that gave no fault.
pub fn done<T: Drop>(told: Result<PyResult<T>, RunFault>) -> Result<T, NoValue> {
    match told {
        Ok(PyResult::Done(value)) => Ok(value),
        _ => Err(NoValue),
    }
}

/// The text of the object that a call gives for a variable's object.
pub fn of_one<F>(vm: &mut VirtualMachine, a: &str, call: F) -> Result<String, NoValue>
where
    F: FnOnce(&mut VirtualMachine, PyObjectRef, u64) -> Result<PyResult<PyObjectRef>, RunFault>,
    requires pre { (m : _) (x : Object) (n : ℕ) → AllHold m.now.world (IsNode x ∷ []) → F.pre call m x n }
    requires post { (m : _) (x : Object) (n : ℕ) (r : _) (k : _) → F.post call m x n r k →
        IfOk r (λ told. AllHold k.now.world (of_done of_node_ref told)) }
{
    let a = object(vm, a);
    let told = call(vm, a, UNITS);
    shown(vm, told)
}

/// The text of the object that a call gives for two variables' objects.
pub fn of_two<F>(vm: &mut VirtualMachine, a: &str, b: &str, call: F) -> Result<String, NoValue>
where
    F: FnOnce(
        &mut VirtualMachine,
        PyObjectRef,
        PyObjectRef,
        u64,
    ) -> Result<PyResult<PyObjectRef>, RunFault>,
    requires pre { (m : _) (x y : Object) (n : ℕ) →
        AllHold m.now.world (IsNode x ∷ IsNode y ∷ []) → F.pre call m x y n }
    requires post { (m : _) (x y : Object) (n : ℕ) (r : _) (k : _) → F.post call m x y n r k →
        IfOk r (λ told. AllHold k.now.world (of_done of_node_ref told)) }
{
    let a = object(vm, a);
    let b = object(vm, b);
    let told = call(vm, a, b, UNITS);
    shown(vm, told)
}

/// What a call tells of a variable's object.
pub fn told_of_one<T: Drop, F>(vm: &mut VirtualMachine, a: &str, call: F) -> Result<T, NoValue>
where
    F: FnOnce(&mut VirtualMachine, PyObjectRef, u64) -> Result<PyResult<T>, RunFault>,
    requires { (m : _) (x : Object) (n : ℕ) → AllHold m.now.world (IsNode x ∷ []) → F.pre call m x n }
{
    let a = object(vm, a);
    done(call(vm, a, UNITS))
}

/// What a call tells of two variables' objects.
pub fn told_of_two<T: Drop, F>(
    vm: &mut VirtualMachine,
    a: &str,
    b: &str,
    call: F,
) -> Result<T, NoValue>
where
    F: FnOnce(&mut VirtualMachine, PyObjectRef, PyObjectRef, u64) -> Result<PyResult<T>, RunFault>,
    requires { (m : _) (x y : Object) (n : ℕ) → AllHold m.now.world (IsNode x ∷ IsNode y ∷ []) → F.pre call m x y n }
{
    let a = object(vm, a);
    let b = object(vm, b);
    done(call(vm, a, b, UNITS))
}
