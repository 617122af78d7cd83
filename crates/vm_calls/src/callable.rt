//! Calls of objects, by their views.

ghost use Rattle.std.specs.Prelude.{◌∷◌};
ghost use Rattle.vm_calls.specs.Below.{of_args, AllHold, IsNode};
ghost use Rattle.vm_calls.specs.Told.{TellsObject};

use crate::calls;
use crate::protocols::PyCallable;
use py_node::task::{Args, Keywords};
use py_node::{CallTask, PyObjectRef, PyResult, Task};
use vm_eval::{RunFault, VirtualMachine};

/// Calls the view's object with arguments and keywords.
pub fn invoke(
    vm: &mut VirtualMachine,
    view: &PyCallable,
    args: Args,
    kw: Keywords,
    budget: u64,
) -> Result<PyResult<PyObjectRef>, RunFault>
    requires { AllHold vm.old.world (IsNode view.now.obj ∷ of_args args.items kw.items) }
    ensures { TellsObject (Task.Call (CallTask.Call view.now.obj args kw)) budget vm.old vm.new result }
{
    calls::call(vm, view.obj, args, kw, budget)
}
