//! Operators of numbers, and of sequences that are joined and repeated.

ghost use Rattle.vm_calls.specs.Below.{[], AllHold, IsNode};
ghost use Rattle.std.specs.Prelude.{◌∷◌};
ghost use Rattle.vm_calls.specs.Told.{TellsObject};

use crate::asked::ask;
use py_node::{OperatorTask, PyNumberBinaryOp, PyNumberUnaryOp, PyObjectRef, PyResult, Task};
use vm_eval::{RunFault, VirtualMachine};

/// What an operator's candidates give for two operands, or NotImplemented.
pub fn binary_op1(
    vm: &mut VirtualMachine,
    op: PyNumberBinaryOp,
    a: PyObjectRef,
    b: PyObjectRef,
    budget: u64,
) -> Result<PyResult<PyObjectRef>, RunFault>
    requires { AllHold vm.old.world (IsNode a ∷ IsNode b ∷ []) }
    ensures { TellsObject (Task.Operator (OperatorTask.BinOp1 op a b)) budget vm.old vm.new result }
{
    let task = Task::Operator(OperatorTask::BinOp1(op, a, b));
    ask(vm, task, budget)
}

/// An operator of two numbers.
pub fn binary_op(
    vm: &mut VirtualMachine,
    op: PyNumberBinaryOp,
    a: PyObjectRef,
    b: PyObjectRef,
    budget: u64,
) -> Result<PyResult<PyObjectRef>, RunFault>
    requires { AllHold vm.old.world (IsNode a ∷ IsNode b ∷ []) }
    ensures { TellsObject (Task.Operator (OperatorTask.Binary op a b)) budget vm.old vm.new result }
{
    let task = Task::Operator(OperatorTask::Binary(op, a, b));
    ask(vm, task, budget)
}

/// The sum of numbers, or sequences joined.
pub fn _add(
    vm: &mut VirtualMachine,
    a: PyObjectRef,
    b: PyObjectRef,
    budget: u64,
) -> Result<PyResult<PyObjectRef>, RunFault>
    requires { AllHold vm.old.world (IsNode a ∷ IsNode b ∷ []) }
    ensures { TellsObject (Task.Operator (OperatorTask.Add a b)) budget vm.old vm.new result }
{
    let task = Task::Operator(OperatorTask::Add(a, b));
    ask(vm, task, budget)
}

/// The difference.
pub fn _sub(
    vm: &mut VirtualMachine,
    a: PyObjectRef,
    b: PyObjectRef,
    budget: u64,
) -> Result<PyResult<PyObjectRef>, RunFault>
    requires { AllHold vm.old.world (IsNode a ∷ IsNode b ∷ []) }
    ensures { TellsObject (Task.Operator (OperatorTask.Binary PyNumberBinaryOp.Subtract a b))
        budget vm.old vm.new result }
{
    let task = Task::Operator(OperatorTask::Binary(PyNumberBinaryOp::Subtract, a, b));
    ask(vm, task, budget)
}

/// The product of numbers, or a sequence repeated.
pub fn _mul(
    vm: &mut VirtualMachine,
    a: PyObjectRef,
    b: PyObjectRef,
    budget: u64,
) -> Result<PyResult<PyObjectRef>, RunFault>
    requires { AllHold vm.old.world (IsNode a ∷ IsNode b ∷ []) }
    ensures { TellsObject (Task.Operator (OperatorTask.Mul a b)) budget vm.old vm.new result }
{
    let task = Task::Operator(OperatorTask::Mul(a, b));
    ask(vm, task, budget)
}

/// What a division leaves.
pub fn _mod(
    vm: &mut VirtualMachine,
    a: PyObjectRef,
    b: PyObjectRef,
    budget: u64,
) -> Result<PyResult<PyObjectRef>, RunFault>
    requires { AllHold vm.old.world (IsNode a ∷ IsNode b ∷ []) }
    ensures { TellsObject (Task.Operator (OperatorTask.Binary PyNumberBinaryOp.Remainder a b))
        budget vm.old vm.new result }
{
    let task = Task::Operator(OperatorTask::Binary(PyNumberBinaryOp::Remainder, a, b));
    ask(vm, task, budget)
}

/// The quotient with what the division leaves.
pub fn _divmod(
    vm: &mut VirtualMachine,
    a: PyObjectRef,
    b: PyObjectRef,
    budget: u64,
) -> Result<PyResult<PyObjectRef>, RunFault>
    requires { AllHold vm.old.world (IsNode a ∷ IsNode b ∷ []) }
    ensures { TellsObject (Task.Operator (OperatorTask.Binary PyNumberBinaryOp.Divmod a b))
        budget vm.old vm.new result }
{
    let task = Task::Operator(OperatorTask::Binary(PyNumberBinaryOp::Divmod, a, b));
    ask(vm, task, budget)
}

/// The first operand, shifted to the left.
pub fn _lshift(
    vm: &mut VirtualMachine,
    a: PyObjectRef,
    b: PyObjectRef,
    budget: u64,
) -> Result<PyResult<PyObjectRef>, RunFault>
    requires { AllHold vm.old.world (IsNode a ∷ IsNode b ∷ []) }
    ensures { TellsObject (Task.Operator (OperatorTask.Binary PyNumberBinaryOp.Lshift a b))
        budget vm.old vm.new result }
{
    let task = Task::Operator(OperatorTask::Binary(PyNumberBinaryOp::Lshift, a, b));
    ask(vm, task, budget)
}

/// The first operand, shifted to the right.
pub fn _rshift(
    vm: &mut VirtualMachine,
    a: PyObjectRef,
    b: PyObjectRef,
    budget: u64,
) -> Result<PyResult<PyObjectRef>, RunFault>
    requires { AllHold vm.old.world (IsNode a ∷ IsNode b ∷ []) }
    ensures { TellsObject (Task.Operator (OperatorTask.Binary PyNumberBinaryOp.Rshift a b))
        budget vm.old vm.new result }
{
    let task = Task::Operator(OperatorTask::Binary(PyNumberBinaryOp::Rshift, a, b));
    ask(vm, task, budget)
}

/// The bits that both have.
pub fn _and(
    vm: &mut VirtualMachine,
    a: PyObjectRef,
    b: PyObjectRef,
    budget: u64,
) -> Result<PyResult<PyObjectRef>, RunFault>
    requires { AllHold vm.old.world (IsNode a ∷ IsNode b ∷ []) }
    ensures { TellsObject (Task.Operator (OperatorTask.Binary PyNumberBinaryOp.And a b)) budget vm.old vm.new result }
{
    let task = Task::Operator(OperatorTask::Binary(PyNumberBinaryOp::And, a, b));
    ask(vm, task, budget)
}

/// The bits that one of both has.
pub fn _xor(
    vm: &mut VirtualMachine,
    a: PyObjectRef,
    b: PyObjectRef,
    budget: u64,
) -> Result<PyResult<PyObjectRef>, RunFault>
    requires { AllHold vm.old.world (IsNode a ∷ IsNode b ∷ []) }
    ensures { TellsObject (Task.Operator (OperatorTask.Binary PyNumberBinaryOp.Xor a b)) budget vm.old vm.new result }
{
    let task = Task::Operator(OperatorTask::Binary(PyNumberBinaryOp::Xor, a, b));
    ask(vm, task, budget)
}

/// The bits that either has.
pub fn _or(
    vm: &mut VirtualMachine,
    a: PyObjectRef,
    b: PyObjectRef,
    budget: u64,
) -> Result<PyResult<PyObjectRef>, RunFault>
    requires { AllHold vm.old.world (IsNode a ∷ IsNode b ∷ []) }
    ensures { TellsObject (Task.Operator (OperatorTask.Binary PyNumberBinaryOp.Or a b)) budget vm.old vm.new result }
{
    let task = Task::Operator(OperatorTask::Binary(PyNumberBinaryOp::Or, a, b));
    ask(vm, task, budget)
}

/// The quotient, rounded down.
pub fn _floordiv(
    vm: &mut VirtualMachine,
    a: PyObjectRef,
    b: PyObjectRef,
    budget: u64,
) -> Result<PyResult<PyObjectRef>, RunFault>
    requires { AllHold vm.old.world (IsNode a ∷ IsNode b ∷ []) }
    ensures { TellsObject (Task.Operator (OperatorTask.Binary PyNumberBinaryOp.FloorDivide a b))
        budget vm.old vm.new result }
{
    let task = Task::Operator(OperatorTask::Binary(PyNumberBinaryOp::FloorDivide, a, b));
    ask(vm, task, budget)
}

/// The quotient.
pub fn _truediv(
    vm: &mut VirtualMachine,
    a: PyObjectRef,
    b: PyObjectRef,
    budget: u64,
) -> Result<PyResult<PyObjectRef>, RunFault>
    requires { AllHold vm.old.world (IsNode a ∷ IsNode b ∷ []) }
    ensures { TellsObject (Task.Operator (OperatorTask.Binary PyNumberBinaryOp.TrueDivide a b))
        budget vm.old vm.new result }
{
    let task = Task::Operator(OperatorTask::Binary(PyNumberBinaryOp::TrueDivide, a, b));
    ask(vm, task, budget)
}

/// The product of matrices.
pub fn _matmul(
    vm: &mut VirtualMachine,
    a: PyObjectRef,
    b: PyObjectRef,
    budget: u64,
) -> Result<PyResult<PyObjectRef>, RunFault>
    requires { AllHold vm.old.world (IsNode a ∷ IsNode b ∷ []) }
    ensures { TellsObject (Task.Operator (OperatorTask.Binary PyNumberBinaryOp.MatrixMultiply a b))
        budget vm.old vm.new result }
{
    let task = Task::Operator(OperatorTask::Binary(PyNumberBinaryOp::MatrixMultiply, a, b));
    ask(vm, task, budget)
}

/// A power, by a modulus unless that is None.
pub fn _pow(
    vm: &mut VirtualMachine,
    a: PyObjectRef,
    b: PyObjectRef,
    modulus: PyObjectRef,
    budget: u64,
) -> Result<PyResult<PyObjectRef>, RunFault>
    requires { AllHold vm.old.world (IsNode a ∷ IsNode b ∷ IsNode modulus ∷ []) }
    ensures { TellsObject (Task.Operator (OperatorTask.Power a b modulus)) budget vm.old vm.new result }
{
    let task = Task::Operator(OperatorTask::Power(a, b, modulus));
    ask(vm, task, budget)
}

/// The number with the other sign.
pub fn _neg(
    vm: &mut VirtualMachine,
    a: PyObjectRef,
    budget: u64,
) -> Result<PyResult<PyObjectRef>, RunFault>
    requires { AllHold vm.old.world (IsNode a ∷ []) }
    ensures { TellsObject (Task.Operator (OperatorTask.Unary PyNumberUnaryOp.Negative a))
        budget vm.old vm.new result }
{
    let task = Task::Operator(OperatorTask::Unary(PyNumberUnaryOp::Negative, a));
    ask(vm, task, budget)
}

/// The number itself.
pub fn _pos(
    vm: &mut VirtualMachine,
    a: PyObjectRef,
    budget: u64,
) -> Result<PyResult<PyObjectRef>, RunFault>
    requires { AllHold vm.old.world (IsNode a ∷ []) }
    ensures { TellsObject (Task.Operator (OperatorTask.Unary PyNumberUnaryOp.Positive a))
        budget vm.old vm.new result }
{
    let task = Task::Operator(OperatorTask::Unary(PyNumberUnaryOp::Positive, a));
    ask(vm, task, budget)
}

/// The number without its sign.
pub fn _abs(
    vm: &mut VirtualMachine,
    a: PyObjectRef,
    budget: u64,
) -> Result<PyResult<PyObjectRef>, RunFault>
    requires { AllHold vm.old.world (IsNode a ∷ []) }
    ensures { TellsObject (Task.Operator (OperatorTask.Unary PyNumberUnaryOp.Absolute a))
        budget vm.old vm.new result }
{
    let task = Task::Operator(OperatorTask::Unary(PyNumberUnaryOp::Absolute, a));
    ask(vm, task, budget)
}

/// All bits turned.
pub fn _invert(
    vm: &mut VirtualMachine,
    a: PyObjectRef,
    budget: u64,
) -> Result<PyResult<PyObjectRef>, RunFault>
    requires { AllHold vm.old.world (IsNode a ∷ []) }
    ensures { TellsObject (Task.Operator (OperatorTask.Unary PyNumberUnaryOp.Invert a)) budget vm.old vm.new result }
{
    let task = Task::Operator(OperatorTask::Unary(PyNumberUnaryOp::Invert, a));
    ask(vm, task, budget)
}
