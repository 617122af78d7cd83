//! Operators in place.

ghost use Rattle.vm_calls.specs.Below.{[], AllHold, IsNode};
ghost use Rattle.std.specs.Prelude.{◌∷◌};
ghost use Rattle.vm_calls.specs.Told.{TellsObject};

use crate::asked::ask;
use py_node::{OperatorTask, PyNumberBinaryOp, PyObjectRef, PyResult, Task};
use vm_eval::{RunFault, VirtualMachine};

/// The same as `_add`, in place.
pub fn _iadd(
    vm: &mut VirtualMachine,
    a: PyObjectRef,
    b: PyObjectRef,
    budget: u64,
) -> Result<PyResult<PyObjectRef>, RunFault>
    requires { AllHold vm.old.world (IsNode a ∷ IsNode b ∷ []) }
    ensures { TellsObject (Task.Operator (OperatorTask.InplaceAdd a b)) budget vm.old vm.new result }
{
    let task = Task::Operator(OperatorTask::InplaceAdd(a, b));
    ask(vm, task, budget)
}

/// The same as `_sub`, in place.
pub fn _isub(
    vm: &mut VirtualMachine,
    a: PyObjectRef,
    b: PyObjectRef,
    budget: u64,
) -> Result<PyResult<PyObjectRef>, RunFault>
    requires { AllHold vm.old.world (IsNode a ∷ IsNode b ∷ []) }
    ensures { TellsObject (Task.Operator (OperatorTask.Inplace PyNumberBinaryOp.Subtract a b))
        budget vm.old vm.new result }
{
    let task = Task::Operator(OperatorTask::Inplace(PyNumberBinaryOp::Subtract, a, b));
    ask(vm, task, budget)
}

/// The same as `_mul`, in place.
pub fn _imul(
    vm: &mut VirtualMachine,
    a: PyObjectRef,
    b: PyObjectRef,
    budget: u64,
) -> Result<PyResult<PyObjectRef>, RunFault>
    requires { AllHold vm.old.world (IsNode a ∷ IsNode b ∷ []) }
    ensures { TellsObject (Task.Operator (OperatorTask.InplaceMul a b)) budget vm.old vm.new result }
{
    let task = Task::Operator(OperatorTask::InplaceMul(a, b));
    ask(vm, task, budget)
}

/// The same as `_mod`, in place.
pub fn _imod(
    vm: &mut VirtualMachine,
    a: PyObjectRef,
    b: PyObjectRef,
    budget: u64,
) -> Result<PyResult<PyObjectRef>, RunFault>
    requires { AllHold vm.old.world (IsNode a ∷ IsNode b ∷ []) }
    ensures { TellsObject (Task.Operator (OperatorTask.Inplace PyNumberBinaryOp.Remainder a b))
        budget vm.old vm.new result }
{
    let task = Task::Operator(OperatorTask::Inplace(PyNumberBinaryOp::Remainder, a, b));
    ask(vm, task, budget)
}

/// The same as `_lshift`, in place.
pub fn _ilshift(
    vm: &mut VirtualMachine,
    a: PyObjectRef,
    b: PyObjectRef,
    budget: u64,
) -> Result<PyResult<PyObjectRef>, RunFault>
    requires { AllHold vm.old.world (IsNode a ∷ IsNode b ∷ []) }
    ensures { TellsObject (Task.Operator (OperatorTask.Inplace PyNumberBinaryOp.Lshift a b))
        budget vm.old vm.new result }
{
    let task = Task::Operator(OperatorTask::Inplace(PyNumberBinaryOp::Lshift, a, b));
    ask(vm, task, budget)
}

/// The same as `_rshift`, in place.
pub fn _irshift(
    vm: &mut VirtualMachine,
    a: PyObjectRef,
    b: PyObjectRef,
    budget: u64,
) -> Result<PyResult<PyObjectRef>, RunFault>
    requires { AllHold vm.old.world (IsNode a ∷ IsNode b ∷ []) }
    ensures { TellsObject (Task.Operator (OperatorTask.Inplace PyNumberBinaryOp.Rshift a b))
        budget vm.old vm.new result }
{
    let task = Task::Operator(OperatorTask::Inplace(PyNumberBinaryOp::Rshift, a, b));
    ask(vm, task, budget)
}

/// The same as `_and`, in place.
pub fn _iand(
    vm: &mut VirtualMachine,
    a: PyObjectRef,
    b: PyObjectRef,
    budget: u64,
) -> Result<PyResult<PyObjectRef>, RunFault>
    requires { AllHold vm.old.world (IsNode a ∷ IsNode b ∷ []) }
    ensures { TellsObject (Task.Operator (OperatorTask.Inplace PyNumberBinaryOp.And a b))
        budget vm.old vm.new result }
{
    let task = Task::Operator(OperatorTask::Inplace(PyNumberBinaryOp::And, a, b));
    ask(vm, task, budget)
}

/// The same as `_xor`, in place.
pub fn _ixor(
    vm: &mut VirtualMachine,
    a: PyObjectRef,
    b: PyObjectRef,
    budget: u64,
) -> Result<PyResult<PyObjectRef>, RunFault>
    requires { AllHold vm.old.world (IsNode a ∷ IsNode b ∷ []) }
    ensures { TellsObject (Task.Operator (OperatorTask.Inplace PyNumberBinaryOp.Xor a b))
        budget vm.old vm.new result }
{
    let task = Task::Operator(OperatorTask::Inplace(PyNumberBinaryOp::Xor, a, b));
    ask(vm, task, budget)
}

/// The same as `_or`, in place.
pub fn _ior(
    vm: &mut VirtualMachine,
    a: PyObjectRef,
    b: PyObjectRef,
    budget: u64,
) -> Result<PyResult<PyObjectRef>, RunFault>
    requires { AllHold vm.old.world (IsNode a ∷ IsNode b ∷ []) }
    ensures { TellsObject (Task.Operator (OperatorTask.Inplace PyNumberBinaryOp.Or a b)) budget vm.old vm.new result }
{
    let task = Task::Operator(OperatorTask::Inplace(PyNumberBinaryOp::Or, a, b));
    ask(vm, task, budget)
}

/// The same as `_floordiv`, in place.
pub fn _ifloordiv(
    vm: &mut VirtualMachine,
    a: PyObjectRef,
    b: PyObjectRef,
    budget: u64,
) -> Result<PyResult<PyObjectRef>, RunFault>
    requires { AllHold vm.old.world (IsNode a ∷ IsNode b ∷ []) }
    ensures { TellsObject (Task.Operator (OperatorTask.Inplace PyNumberBinaryOp.FloorDivide a b))
        budget vm.old vm.new result }
{
    let task = Task::Operator(OperatorTask::Inplace(PyNumberBinaryOp::FloorDivide, a, b));
    ask(vm, task, budget)
}

/// The same as `_truediv`, in place.
pub fn _itruediv(
    vm: &mut VirtualMachine,
    a: PyObjectRef,
    b: PyObjectRef,
    budget: u64,
) -> Result<PyResult<PyObjectRef>, RunFault>
    requires { AllHold vm.old.world (IsNode a ∷ IsNode b ∷ []) }
    ensures { TellsObject (Task.Operator (OperatorTask.Inplace PyNumberBinaryOp.TrueDivide a b))
        budget vm.old vm.new result }
{
    let task = Task::Operator(OperatorTask::Inplace(PyNumberBinaryOp::TrueDivide, a, b));
    ask(vm, task, budget)
}

/// The same as `_matmul`, in place.
pub fn _imatmul(
    vm: &mut VirtualMachine,
    a: PyObjectRef,
    b: PyObjectRef,
    budget: u64,
) -> Result<PyResult<PyObjectRef>, RunFault>
    requires { AllHold vm.old.world (IsNode a ∷ IsNode b ∷ []) }
    ensures { TellsObject (Task.Operator (OperatorTask.Inplace PyNumberBinaryOp.MatrixMultiply a b))
        budget vm.old vm.new result }
{
    let task = Task::Operator(OperatorTask::Inplace(PyNumberBinaryOp::MatrixMultiply, a, b));
    ask(vm, task, budget)
}

/// The same as `_pow`, in place.
pub fn _ipow(
    vm: &mut VirtualMachine,
    a: PyObjectRef,
    b: PyObjectRef,
    modulus: PyObjectRef,
    budget: u64,
) -> Result<PyResult<PyObjectRef>, RunFault>
    requires { AllHold vm.old.world (IsNode a ∷ IsNode b ∷ IsNode modulus ∷ []) }
    ensures { TellsObject (Task.Operator (OperatorTask.InplacePower a b modulus)) budget vm.old vm.new result }
{
    let task = Task::Operator(OperatorTask::InplacePower(a, b, modulus));
    ask(vm, task, budget)
}
