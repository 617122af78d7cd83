//! Calls of objects.

ghost use Rattle.std.specs.Prelude.{◌∷◌};
ghost use Rattle.vm_calls.specs.Below.{of_args, AllHold, IsNode};
ghost use Rattle.vm_calls.specs.Told.{TellsObject};

use crate::asked::ask;
use py_node::task::{Args, Keywords};
use py_node::{CallTask, PyObjectRef, PyResult, Task};
use vm_eval::{RunFault, VirtualMachine};

/// Calls an object with arguments and keywords.
pub fn call(
    vm: &mut VirtualMachine,
    object: PyObjectRef,
    args: Args,
    kw: Keywords,
    budget: u64,
) -> Result<PyResult<PyObjectRef>, RunFault>
    requires { AllHold vm.old.world (IsNode object ∷ of_args args.items kw.items) }
    ensures { TellsObject (Task.Call (CallTask.Call object args kw)) budget vm.old vm.new result }
{
    let task = Task::Call(CallTask::Call(object, args, kw));
    ask(vm, task, budget)
}

/// The same.
pub fn call_with_args(
    vm: &mut VirtualMachine,
    object: PyObjectRef,
    args: Args,
    kw: Keywords,
    budget: u64,
) -> Result<PyResult<PyObjectRef>, RunFault>
    requires { AllHold vm.old.world (IsNode object ∷ of_args args.items kw.items) }
    ensures { TellsObject (Task.Call (CallTask.Call object args kw)) budget vm.old vm.new result }
{
    let task = Task::Call(CallTask::Call(object, args, kw));
    ask(vm, task, budget)
}
