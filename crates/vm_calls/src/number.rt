//! What is asked of an object as a number.

ghost use Rattle.vm_calls.specs.Below.{is_some, [], slot_at, AllHold, IsNode};
ghost use Rattle.std.specs.Prelude.{◌∷◌};
ghost use Rattle.vm_calls.specs.Told.{TellsObjectWhere};

use crate::asked::{ask_some, none_told};
use crate::protocols::PyNumber;
use py_node::{ProtocolTask, PyObjectRef, PyResult, SlotId, Task};
use vm_eval::{RunFault, VirtualMachine};

/// The view's object as a whole number; None exactly where its class has no slot of its own for one.
pub fn int(
    vm: &mut VirtualMachine,
    view: &PyNumber,
    budget: u64,
) -> Result<PyResult<Option<PyObjectRef>>, RunFault>
    requires { AllHold vm.old.world (IsNode view.now.obj ∷ []) }
    ensures { TellsObjectWhere (λ w. is_some (slot_at w view.now.obj SlotId.Int))
        (Task.Protocol (ProtocolTask.Int view.now.obj)) budget vm.old vm.new result }
{
    if vm.world().slot(view.obj, SlotId::Int).is_none() {
        return none_told(vm);
    }
    let task = Task::Protocol(ProtocolTask::Int(view.obj));
    ask_some(vm, task, budget)
}

/// The view's object as an index; None exactly where its class has no slot of its own for one.
pub fn index(
    vm: &mut VirtualMachine,
    view: &PyNumber,
    budget: u64,
) -> Result<PyResult<Option<PyObjectRef>>, RunFault>
    requires { AllHold vm.old.world (IsNode view.now.obj ∷ []) }
    ensures { TellsObjectWhere (λ w. is_some (slot_at w view.now.obj SlotId.Index))
        (Task.Protocol (ProtocolTask.Index view.now.obj)) budget vm.old vm.new result }
{
    if vm.world().slot(view.obj, SlotId::Index).is_none() {
        return none_told(vm);
    }
    let task = Task::Protocol(ProtocolTask::Index(view.obj));
    ask_some(vm, task, budget)
}
