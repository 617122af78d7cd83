//! Comparisons.

ghost use Rattle.vm_calls.specs.Below.{[], AllHold, IsNode};
ghost use Rattle.std.specs.Prelude.{◌∷◌};
ghost use Rattle.vm_calls.specs.Told.{TellsObject, TellsOrder, TellsTruth};

use crate::asked::ask;
use py_node::protocol::CompareTask;
use py_node::{PyComparisonOp, PyObjectRef, PyResult, Task};
use vm_eval::{RunFault, VirtualMachine};

/// What a comparison gives.
pub fn rich_compare(
    vm: &mut VirtualMachine,
    a: PyObjectRef,
    b: PyObjectRef,
    op: PyComparisonOp,
    budget: u64,
) -> Result<PyResult<PyObjectRef>, RunFault>
    requires { AllHold vm.old.world (IsNode a ∷ IsNode b ∷ []) }
    ensures { TellsObject (Task.Compare (CompareTask.Compare a b op)) budget vm.old vm.new result }
{
    let task = Task::Compare(CompareTask::Compare(a, b, op));
    ask(vm, task, budget)
}

/// Whether a comparison holds.
pub fn rich_compare_bool(
    vm: &mut VirtualMachine,
    a: PyObjectRef,
    b: PyObjectRef,
    op: PyComparisonOp,
    budget: u64,
) -> Result<PyResult<bool>, RunFault>
    requires { AllHold vm.old.world (IsNode a ∷ IsNode b ∷ []) }
    ensures { TellsTruth (Task.Compare (CompareTask.RichBool a b op)) budget vm.old vm.new result }
{
    let task = Task::Compare(CompareTask::RichBool(a, b, op));
    ask(vm, task, budget)
}

/// Whether two objects are equal.
pub fn bool_eq(
    vm: &mut VirtualMachine,
    a: PyObjectRef,
    b: PyObjectRef,
    budget: u64,
) -> Result<PyResult<bool>, RunFault>
    requires { AllHold vm.old.world (IsNode a ∷ IsNode b ∷ []) }
    ensures { TellsTruth (Task.Compare (CompareTask.BoolEq a b)) budget vm.old vm.new result }
{
    let task = Task::Compare(CompareTask::BoolEq(a, b));
    ask(vm, task, budget)
}

/// Whether two objects are one or equal.
pub fn identical_or_equal(
    vm: &mut VirtualMachine,
    a: PyObjectRef,
    b: PyObjectRef,
    budget: u64,
) -> Result<PyResult<bool>, RunFault>
    requires { AllHold vm.old.world (IsNode a ∷ IsNode b ∷ []) }
    ensures { TellsTruth (Task.Compare (CompareTask.IdEq a b)) budget vm.old vm.new result }
{
    let task = Task::Compare(CompareTask::IdEq(a, b));
    ask(vm, task, budget)
}

/// Whether a sequence is less than another, by these two items of theirs, or none where these are equal.
pub fn bool_seq_lt(
    vm: &mut VirtualMachine,
    a: PyObjectRef,
    b: PyObjectRef,
    budget: u64,
) -> Result<PyResult<Option<bool>>, RunFault>
    requires { AllHold vm.old.world (IsNode a ∷ IsNode b ∷ []) }
    ensures { TellsOrder (Task.Compare (CompareTask.SeqLt a b)) budget vm.old vm.new result }
{
    let task = Task::Compare(CompareTask::SeqLt(a, b));
    ask(vm, task, budget)
}

/// Whether a sequence is greater than another, by these two items of theirs, or none where these are equal.
pub fn bool_seq_gt(
    vm: &mut VirtualMachine,
    a: PyObjectRef,
    b: PyObjectRef,
    budget: u64,
) -> Result<PyResult<Option<bool>>, RunFault>
    requires { AllHold vm.old.world (IsNode a ∷ IsNode b ∷ []) }
    ensures { TellsOrder (Task.Compare (CompareTask.SeqGt a b)) budget vm.old vm.new result }
{
    let task = Task::Compare(CompareTask::SeqGt(a, b));
    ask(vm, task, budget)
}
