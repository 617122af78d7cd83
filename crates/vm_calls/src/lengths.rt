//! Lengths, as the table of a view allows.

ghost use Rattle.vm_calls.specs.Below.{[], AllHold, IsNode};
ghost use Rattle.std.specs.Prelude.{◌∷◌};
ghost use Rattle.vm_calls.specs.Told.{TellsLength, TellsLengthSome};
ghost use Rattle.vm_calls.specs.Views.{ToldIf, lacks};

use crate::asked::{ask, ask_some, lacking, none_told};
use py_node::{Cause, ProtocolTask, PyObjectRef, PyResult, SlotEntry, Task};
use vm_eval::{RunFault, VirtualMachine};

// The length of an object, where there is an entry for it.
pub(crate) fn length_by(
    vm: &mut VirtualMachine,
    object: PyObjectRef,
    entry: Option<SlotEntry>,
    budget: u64,
) -> Result<PyResult<usize>, RunFault>
    requires { AllHold vm.old.world (IsNode object ∷ []) }
    ensures { ToldIf entry (lacks Cause.NoLength) (TellsLength (Task.Protocol (ProtocolTask.Length object)) budget)
        vm.old vm.new result }
{
    if entry.is_none() {
        return lacking(vm, Cause::NoLength);
    }
    let task = Task::Protocol(ProtocolTask::Length(object));
    ask(vm, task, budget)
}

// The same, or none.
pub(crate) fn length_opt_by(
    vm: &mut VirtualMachine,
    object: PyObjectRef,
    entry: Option<SlotEntry>,
    budget: u64,
) -> Result<PyResult<Option<usize>>, RunFault>
    requires { AllHold vm.old.world (IsNode object ∷ []) }
    ensures { ToldIf entry (PyResult.Done None) (TellsLengthSome (Task.Protocol (ProtocolTask.Length object)) budget)
        vm.old vm.new result }
{
    if entry.is_none() {
        return none_told(vm);
    }
    let task = Task::Protocol(ProtocolTask::Length(object));
    ask_some(vm, task, budget)
}
