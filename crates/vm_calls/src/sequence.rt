//! What is asked of an object as a sequence.

ghost use Rattle.vm_calls.specs.Below.{[], the_list, the_tuple, AList, ATuple, DoDelItem, DoGetItem, DoSetItem, ToProtocol, AllHold, IsNode, of_node_ref};
ghost use Rattle.std.specs.Prelude.{◌∷◌};
ghost use Rattle.vm_calls.specs.Answers.{IsDone, IsObject};
ghost use Rattle.vm_calls.specs.Told.{TellsDone, TellsLength, TellsLengthSome, TellsObject, TellsTruth, of_nothing};
ghost use Rattle.vm_calls.specs.Views.{TellsItems, TellsMadeOf, ToldIf, ToldWith, lacks};

use crate::asked::{ask, lacking};
use crate::lengths::{length_by, length_opt_by};
use crate::made::{Made, items, made_of_items, new_number};
use crate::protocols::PySequence;
use py_node::{Cause, OperatorTask, ProtocolTask, PyObjectRef, PyResult, Task};
use vm_eval::{RunFault, VirtualMachine};

/// The length of the view's object. Without an entry for it in the view's table no task is asked, and it is a
/// TypeError NoLength.
pub fn length(
    vm: &mut VirtualMachine,
    view: &PySequence,
    budget: u64,
) -> Result<PyResult<usize>, RunFault>
    requires { AllHold vm.old.world (IsNode view.now.obj ∷ []) }
    ensures { ToldIf view.now.methods.length (lacks Cause.NoLength)
        (TellsLength (Task.Protocol (ProtocolTask.Length view.now.obj)) budget) vm.old vm.new result }
{
    length_by(vm, view.obj, view.methods.length, budget)
}

/// The same; None exactly where the view's table has no entry for it, and no task is asked then.
pub fn length_opt(
    vm: &mut VirtualMachine,
    view: &PySequence,
    budget: u64,
) -> Result<PyResult<Option<usize>>, RunFault>
    requires { AllHold vm.old.world (IsNode view.now.obj ∷ []) }
    ensures { ToldIf view.now.methods.length (PyResult.Done None)
        (TellsLengthSome (Task.Protocol (ProtocolTask.Length view.now.obj)) budget) vm.old vm.new result }
{
    length_opt_by(vm, view.obj, view.methods.length, budget)
}

/// The view's object with another one joined to it.
pub fn concat(
    vm: &mut VirtualMachine,
    view: &PySequence,
    other: PyObjectRef,
    budget: u64,
) -> Result<PyResult<PyObjectRef>, RunFault>
    requires { AllHold vm.old.world (IsNode view.now.obj ∷ IsNode other ∷ []) }
    ensures { TellsObject (Task.Operator (OperatorTask.Concat view.now.obj other)) budget vm.old vm.new result }
{
    let task = Task::Operator(OperatorTask::Concat(view.obj, other));
    ask(vm, task, budget)
}

/// The view's object so many times.
pub fn repeat(
    vm: &mut VirtualMachine,
    view: &PySequence,
    n: i64,
    budget: u64,
) -> Result<PyResult<PyObjectRef>, RunFault>
    requires { AllHold vm.old.world (IsNode view.now.obj ∷ []) }
    ensures { TellsObject (Task.Operator (OperatorTask.Repeat view.now.obj n)) budget vm.old vm.new result }
{
    let task = Task::Operator(OperatorTask::Repeat(view.obj, n));
    ask(vm, task, budget)
}

/// Joins another object to the view's, in place where its class can.
pub fn inplace_concat(
    vm: &mut VirtualMachine,
    view: &PySequence,
    other: PyObjectRef,
    budget: u64,
) -> Result<PyResult<PyObjectRef>, RunFault>
    requires { AllHold vm.old.world (IsNode view.now.obj ∷ IsNode other ∷ []) }
    ensures { TellsObject (Task.Operator (OperatorTask.InplaceConcat view.now.obj other)) budget vm.old vm.new result }
{
    let task = Task::Operator(OperatorTask::InplaceConcat(view.obj, other));
    ask(vm, task, budget)
}

/// Repeats the view's object so many times, in place where its class can.
pub fn inplace_repeat(
    vm: &mut VirtualMachine,
    view: &PySequence,
    n: i64,
    budget: u64,
) -> Result<PyResult<PyObjectRef>, RunFault>
    requires { AllHold vm.old.world (IsNode view.now.obj ∷ []) }
    ensures { TellsObject (Task.Operator (OperatorTask.InplaceRepeat view.now.obj n)) budget vm.old vm.new result }
{
    let task = Task::Operator(OperatorTask::InplaceRepeat(view.obj, n));
    ask(vm, task, budget)
}

/// The item of a number, which is made an object. Without an entry for it in the view's table no task is asked, and it
/// is a TypeError NotSubscriptable.
pub fn get_item(
    vm: &mut VirtualMachine,
    view: &PySequence,
    i: i64,
    budget: u64,
) -> Result<PyResult<PyObjectRef>, RunFault>
    requires { AllHold vm.old.world (IsNode view.now.obj ∷ []) }
    ensures { ToldIf view.now.methods.item (lacks Cause.NotSubscriptable)
        (ToldWith IsObject of_node_ref i (λ k. ToProtocol (DoGetItem view.now.obj k)) budget) vm.old vm.new result }
{
    if view.methods.item.is_none() {
        return lacking(vm, Cause::NotSubscriptable);
    }
    let place = new_number(vm, i)?;
    let task = Task::Protocol(ProtocolTask::GetItem(view.obj, place));
    ask(vm, task, budget)
}

/// Sets the item of a number, which is made an object. Without an entry for it in the view's table no task is asked,
/// and it is a TypeError NoItemAssignment.
pub fn set_item(
    vm: &mut VirtualMachine,
    view: &PySequence,
    i: i64,
    value: PyObjectRef,
    budget: u64,
) -> Result<PyResult<()>, RunFault>
    requires { AllHold vm.old.world (IsNode view.now.obj ∷ IsNode value ∷ []) }
    ensures { ToldIf view.now.methods.ass_item (lacks Cause.NoItemAssignment)
        (ToldWith IsDone of_nothing i (λ k. ToProtocol (DoSetItem view.now.obj k value)) budget)
        vm.old vm.new result }
{
    if view.methods.ass_item.is_none() {
        return lacking(vm, Cause::NoItemAssignment);
    }
    let place = new_number(vm, i)?;
    let task = Task::Protocol(ProtocolTask::SetItem(view.obj, place, value));
    ask(vm, task, budget)
}

/// Takes the item of a number out, which is made an object. Without an entry for it in the view's table no task is
/// asked, and it is a TypeError NoItemDeletion.
pub fn del_item(
    vm: &mut VirtualMachine,
    view: &PySequence,
    i: i64,
    budget: u64,
) -> Result<PyResult<()>, RunFault>
    requires { AllHold vm.old.world (IsNode view.now.obj ∷ []) }
    ensures { ToldIf view.now.methods.ass_item (lacks Cause.NoItemDeletion)
        (ToldWith IsDone of_nothing i (λ k. ToProtocol (DoDelItem view.now.obj k)) budget)
        vm.old vm.new result }
{
    if view.methods.ass_item.is_none() {
        return lacking(vm, Cause::NoItemDeletion);
    }
    let place = new_number(vm, i)?;
    let task = Task::Protocol(ProtocolTask::DelItem(view.obj, place));
    ask(vm, task, budget)
}

/// The items from a number up to another one.
pub fn get_slice(
    vm: &mut VirtualMachine,
    view: &PySequence,
    start: i64,
    stop: i64,
    budget: u64,
) -> Result<PyResult<PyObjectRef>, RunFault>
    requires { AllHold vm.old.world (IsNode view.now.obj ∷ []) }
    ensures { TellsObject (Task.Protocol (ProtocolTask.GetSlice view.now.obj start stop)) budget vm.old vm.new result }
{
    let task = Task::Protocol(ProtocolTask::GetSlice(view.obj, start, stop));
    ask(vm, task, budget)
}

/// Sets the items from a number up to another one to those of an object.
pub fn set_slice(
    vm: &mut VirtualMachine,
    view: &PySequence,
    start: i64,
    stop: i64,
    value: PyObjectRef,
    budget: u64,
) -> Result<PyResult<()>, RunFault>
    requires { AllHold vm.old.world (IsNode view.now.obj ∷ IsNode value ∷ []) }
    ensures { TellsDone (Task.Protocol (ProtocolTask.SetSlice view.now.obj start stop value))
        budget vm.old vm.new result }
{
    let task = Task::Protocol(ProtocolTask::SetSlice(view.obj, start, stop, value));
    ask(vm, task, budget)
}

/// Takes the items from a number up to another one out.
pub fn del_slice(
    vm: &mut VirtualMachine,
    view: &PySequence,
    start: i64,
    stop: i64,
    budget: u64,
) -> Result<PyResult<()>, RunFault>
    requires { AllHold vm.old.world (IsNode view.now.obj ∷ []) }
    ensures { TellsDone (Task.Protocol (ProtocolTask.DelSlice view.now.obj start stop)) budget vm.old vm.new result }
{
    let task = Task::Protocol(ProtocolTask::DelSlice(view.obj, start, stop));
    ask(vm, task, budget)
}

/// A new tuple of the items of the view's object.
pub fn tuple(
    vm: &mut VirtualMachine,
    view: &PySequence,
    budget: u64,
) -> Result<PyResult<PyObjectRef>, RunFault>
    requires { AllHold vm.old.world (IsNode view.now.obj ∷ []) }
    ensures { TellsMadeOf the_tuple ATuple view.now.obj budget vm.old vm.new result }
{
    made_of_items(vm, view.obj, Made::Tuple, budget)
}

/// A new list of the items of the view's object.
pub fn list(
    vm: &mut VirtualMachine,
    view: &PySequence,
    budget: u64,
) -> Result<PyResult<PyObjectRef>, RunFault>
    requires { AllHold vm.old.world (IsNode view.now.obj ∷ []) }
    ensures { TellsMadeOf the_list AList view.now.obj budget vm.old vm.new result }
{
    made_of_items(vm, view.obj, Made::List, budget)
}

/// How often an object stands in the view's.
pub fn count(
    vm: &mut VirtualMachine,
    view: &PySequence,
    object: PyObjectRef,
    budget: u64,
) -> Result<PyResult<usize>, RunFault>
    requires { AllHold vm.old.world (IsNode view.now.obj ∷ IsNode object ∷ []) }
    ensures { TellsLength (Task.Protocol (ProtocolTask.Count view.now.obj object)) budget vm.old vm.new result }
{
    let task = Task::Protocol(ProtocolTask::Count(view.obj, object));
    ask(vm, task, budget)
}

/// Where an object first stands in the view's.
pub fn index(
    vm: &mut VirtualMachine,
    view: &PySequence,
    object: PyObjectRef,
    budget: u64,
) -> Result<PyResult<usize>, RunFault>
    requires { AllHold vm.old.world (IsNode view.now.obj ∷ IsNode object ∷ []) }
    ensures { TellsLength (Task.Protocol (ProtocolTask.Find view.now.obj object)) budget vm.old vm.new result }
{
    let task = Task::Protocol(ProtocolTask::Find(view.obj, object));
    ask(vm, task, budget)
}

/// Whether the view's object contains another one.
pub fn contains(
    vm: &mut VirtualMachine,
    view: &PySequence,
    object: PyObjectRef,
    budget: u64,
) -> Result<PyResult<bool>, RunFault>
    requires { AllHold vm.old.world (IsNode view.now.obj ∷ IsNode object ∷ []) }
    ensures { TellsTruth (Task.Protocol (ProtocolTask.Contains view.now.obj object)) budget vm.old vm.new result }
{
    let task = Task::Protocol(ProtocolTask::Contains(view.obj, object));
    ask(vm, task, budget)
}

/// The items of the view's object.
pub fn extract(
    vm: &mut VirtualMachine,
    view: &PySequence,
    budget: u64,
) -> Result<PyResult<Vec<PyObjectRef>>, RunFault>
    requires { AllHold vm.old.world (IsNode view.now.obj ∷ []) }
    ensures { TellsItems view.now.obj budget vm.old vm.new result }
{
    items(vm, view.obj, budget)
}
