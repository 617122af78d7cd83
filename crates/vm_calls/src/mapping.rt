//! What is asked of an object as a mapping.

ghost use Rattle.vm_calls.specs.Below.{[], AllHold, IsNode, of_node_ref, of_option};
ghost use Rattle.std.specs.Prelude.{◌∷◌};
ghost use Rattle.vm_calls.specs.Told.{TellsDone, TellsLength, TellsLengthSome, TellsObject};
ghost use Rattle.vm_calls.specs.Views.{ToldIf, item_task, lacks, missing_item};

use crate::asked::{ask, lacking};
use crate::lengths::{length_by, length_opt_by};
use crate::protocols::PyMapping;
use py_node::{Cause, ProtocolTask, PyObjectRef, PyResult, Task};
use vm_eval::{RunFault, VirtualMachine};

/// The length of the view's object. Without an entry for it in the view's table no task is asked, and it is a
/// TypeError NoLength.
pub fn length(
    vm: &mut VirtualMachine,
    view: &PyMapping,
    budget: u64,
) -> Result<PyResult<usize>, RunFault>
    requires { AllHold vm.old.world (IsNode view.now.obj ∷ []) }
    ensures { ToldIf view.now.methods.length (lacks Cause.NoLength)
        (TellsLength (Task.Protocol (ProtocolTask.Length view.now.obj)) budget) vm.old vm.new result }
{
    length_by(vm, view.obj, view.methods.length, budget)
}

/// The same; None exactly where the view's table has no entry for it, and no task is asked then.
pub fn length_opt(
    vm: &mut VirtualMachine,
    view: &PyMapping,
    budget: u64,
) -> Result<PyResult<Option<usize>>, RunFault>
    requires { AllHold vm.old.world (IsNode view.now.obj ∷ []) }
    ensures { ToldIf view.now.methods.length (PyResult.Done None)
        (TellsLengthSome (Task.Protocol (ProtocolTask.Length view.now.obj)) budget) vm.old vm.new result }
{
    length_opt_by(vm, view.obj, view.methods.length, budget)
}

/// The item of a key. Without an entry for it in the view's table no task is asked, and it is a TypeError
/// NotSubscriptable.
pub fn subscript(
    vm: &mut VirtualMachine,
    view: &PyMapping,
    key: PyObjectRef,
    budget: u64,
) -> Result<PyResult<PyObjectRef>, RunFault>
    requires { AllHold vm.old.world (IsNode view.now.obj ∷ IsNode key ∷ []) }
    ensures { ToldIf view.now.methods.subscript (lacks Cause.NotSubscriptable)
        (TellsObject (Task.Protocol (ProtocolTask.GetItem view.now.obj key)) budget) vm.old vm.new result }
{
    if view.methods.subscript.is_none() {
        return lacking(vm, Cause::NotSubscriptable);
    }
    let task = Task::Protocol(ProtocolTask::GetItem(view.obj, key));
    ask(vm, task, budget)
}

/// Sets the item of a key to a value, or takes it out where there is none. Without an entry for it in the view's table
/// no task is asked, and it is a TypeError NoItemAssignment or NoItemDeletion.
pub fn ass_subscript(
    vm: &mut VirtualMachine,
    view: &PyMapping,
    key: PyObjectRef,
    value: Option<PyObjectRef>,
    budget: u64,
) -> Result<PyResult<()>, RunFault>
    requires { AllHold vm.old.world (IsNode view.now.obj ∷ IsNode key ∷ of_option of_node_ref value) }
    ensures { ToldIf view.now.methods.ass_subscript (lacks (missing_item value))
        (TellsDone (item_task view.now.obj key value) budget) vm.old vm.new result }
{
    let (task, cause) = match value {
        Some(value) => (
            ProtocolTask::SetItem(view.obj, key, value),
            Cause::NoItemAssignment,
        ),
        None => (ProtocolTask::DelItem(view.obj, key), Cause::NoItemDeletion),
    };
    if view.methods.ass_subscript.is_none() {
        return lacking(vm, cause);
    }
    ask(vm, Task::Protocol(task), budget)
}

/// The keys of the view's object.
pub fn keys(
    vm: &mut VirtualMachine,
    view: &PyMapping,
    budget: u64,
) -> Result<PyResult<PyObjectRef>, RunFault>
    requires { AllHold vm.old.world (IsNode view.now.obj ∷ []) }
    ensures { TellsObject (Task.Protocol (ProtocolTask.Keys view.now.obj)) budget vm.old vm.new result }
{
    let task = Task::Protocol(ProtocolTask::Keys(view.obj));
    ask(vm, task, budget)
}

/// The values of the view's object.
pub fn values(
    vm: &mut VirtualMachine,
    view: &PyMapping,
    budget: u64,
) -> Result<PyResult<PyObjectRef>, RunFault>
    requires { AllHold vm.old.world (IsNode view.now.obj ∷ []) }
    ensures { TellsObject (Task.Protocol (ProtocolTask.Values view.now.obj)) budget vm.old vm.new result }
{
    let task = Task::Protocol(ProtocolTask::Values(view.obj));
    ask(vm, task, budget)
}

/// The keys of the view's object with their values.
pub fn items(
    vm: &mut VirtualMachine,
    view: &PyMapping,
    budget: u64,
) -> Result<PyResult<PyObjectRef>, RunFault>
    requires { AllHold vm.old.world (IsNode view.now.obj ∷ []) }
    ensures { TellsObject (Task.Protocol (ProtocolTask.Items view.now.obj)) budget vm.old vm.new result }
{
    let task = Task::Protocol(ProtocolTask::Items(view.obj));
    ask(vm, task, budget)
}
