//! Items, iterations, and what all objects can do.

ghost use Rattle.vm_calls.specs.Below.{[], AllHold, IsNode};
ghost use Rattle.std.specs.Prelude.{◌∷◌};
ghost use Rattle.vm_calls.specs.Told.{TellsAnswer, TellsDone, TellsNumber, TellsObject, TellsTruth};

use crate::asked::ask;
use py_node::protocol::{ObjectTask, ProtocolTask};
use py_node::{Answer, PyObjectRef, PyResult, Task};
use vm_eval::{RunFault, VirtualMachine};

/// The item of a key.
pub fn get_item(
    vm: &mut VirtualMachine,
    object: PyObjectRef,
    key: PyObjectRef,
    budget: u64,
) -> Result<PyResult<PyObjectRef>, RunFault>
    requires { AllHold vm.old.world (IsNode object ∷ IsNode key ∷ []) }
    ensures { TellsObject (Task.Protocol (ProtocolTask.GetItem object key)) budget vm.old vm.new result }
{
    let task = Task::Protocol(ProtocolTask::GetItem(object, key));
    ask(vm, task, budget)
}

/// Sets the item of a key to a value.
pub fn set_item(
    vm: &mut VirtualMachine,
    object: PyObjectRef,
    key: PyObjectRef,
    value: PyObjectRef,
    budget: u64,
) -> Result<PyResult<()>, RunFault>
    requires { AllHold vm.old.world (IsNode object ∷ IsNode key ∷ IsNode value ∷ []) }
    ensures { TellsDone (Task.Protocol (ProtocolTask.SetItem object key value)) budget vm.old vm.new result }
{
    let task = Task::Protocol(ProtocolTask::SetItem(object, key, value));
    ask(vm, task, budget)
}

/// Takes the item of a key out.
pub fn del_item(
    vm: &mut VirtualMachine,
    object: PyObjectRef,
    key: PyObjectRef,
    budget: u64,
) -> Result<PyResult<()>, RunFault>
    requires { AllHold vm.old.world (IsNode object ∷ IsNode key ∷ []) }
    ensures { TellsDone (Task.Protocol (ProtocolTask.DelItem object key)) budget vm.old vm.new result }
{
    let task = Task::Protocol(ProtocolTask::DelItem(object, key));
    ask(vm, task, budget)
}

/// An iteration over an object.
pub fn get_iter(
    vm: &mut VirtualMachine,
    object: PyObjectRef,
    budget: u64,
) -> Result<PyResult<PyObjectRef>, RunFault>
    requires { AllHold vm.old.world (IsNode object ∷ []) }
    ensures { TellsObject (Task.Protocol (ProtocolTask.GetIter object)) budget vm.old vm.new result }
{
    let task = Task::Protocol(ProtocolTask::GetIter(object));
    ask(vm, task, budget)
}

/// The next item of an iteration, as a value, or that it is exhausted.
pub fn next(
    vm: &mut VirtualMachine,
    object: PyObjectRef,
    budget: u64,
) -> Result<PyResult<Answer>, RunFault>
    requires { AllHold vm.old.world (IsNode object ∷ []) }
    ensures { TellsAnswer (Task.Protocol (ProtocolTask.Next object)) budget vm.old vm.new result }
{
    let task = Task::Protocol(ProtocolTask::Next(object));
    ask(vm, task, budget)
}

/// Whether the first object contains the second.
pub fn _contains(
    vm: &mut VirtualMachine,
    haystack: PyObjectRef,
    needle: PyObjectRef,
    budget: u64,
) -> Result<PyResult<bool>, RunFault>
    requires { AllHold vm.old.world (IsNode haystack ∷ IsNode needle ∷ []) }
    ensures { TellsTruth (Task.Protocol (ProtocolTask.Contains haystack needle)) budget vm.old vm.new result }
{
    let task = Task::Protocol(ProtocolTask::Contains(haystack, needle));
    ask(vm, task, budget)
}

/// An object's hash.
pub fn hash(
    vm: &mut VirtualMachine,
    object: PyObjectRef,
    budget: u64,
) -> Result<PyResult<i64>, RunFault>
    requires { AllHold vm.old.world (IsNode object ∷ []) }
    ensures { TellsNumber (Task.Object (ObjectTask.Hash object)) budget vm.old vm.new result }
{
    let task = Task::Object(ObjectTask::Hash(object));
    ask(vm, task, budget)
}

/// The text that stands for an object.
pub fn repr(
    vm: &mut VirtualMachine,
    object: PyObjectRef,
    budget: u64,
) -> Result<PyResult<PyObjectRef>, RunFault>
    requires { AllHold vm.old.world (IsNode object ∷ []) }
    ensures { TellsObject (Task.Object (ObjectTask.Repr object)) budget vm.old vm.new result }
{
    let task = Task::Object(ObjectTask::Repr(object));
    ask(vm, task, budget)
}

/// An object's text.
pub fn str(
    vm: &mut VirtualMachine,
    object: PyObjectRef,
    budget: u64,
) -> Result<PyResult<PyObjectRef>, RunFault>
    requires { AllHold vm.old.world (IsNode object ∷ []) }
    ensures { TellsObject (Task.Object (ObjectTask.Str object)) budget vm.old vm.new result }
{
    let task = Task::Object(ObjectTask::Str(object));
    ask(vm, task, budget)
}

/// An object's text by a specification.
pub fn format(
    vm: &mut VirtualMachine,
    object: PyObjectRef,
    spec: PyObjectRef,
    budget: u64,
) -> Result<PyResult<PyObjectRef>, RunFault>
    requires { AllHold vm.old.world (IsNode object ∷ IsNode spec ∷ []) }
    ensures { TellsObject (Task.Object (ObjectTask.Format object spec)) budget vm.old vm.new result }
{
    let task = Task::Object(ObjectTask::Format(object, spec));
    ask(vm, task, budget)
}

/// The names of an object's attributes.
pub fn dir(
    vm: &mut VirtualMachine,
    object: PyObjectRef,
    budget: u64,
) -> Result<PyResult<PyObjectRef>, RunFault>
    requires { AllHold vm.old.world (IsNode object ∷ []) }
    ensures { TellsObject (Task.Object (ObjectTask.Dir object)) budget vm.old vm.new result }
{
    let task = Task::Object(ObjectTask::Dir(object));
    ask(vm, task, budget)
}

/// Whether an object counts as an instance of a class.
pub fn is_instance(
    vm: &mut VirtualMachine,
    object: PyObjectRef,
    class: PyObjectRef,
    budget: u64,
) -> Result<PyResult<bool>, RunFault>
    requires { AllHold vm.old.world (IsNode object ∷ IsNode class ∷ []) }
    ensures { TellsTruth (Task.Object (ObjectTask.IsInstance object class)) budget vm.old vm.new result }
{
    let task = Task::Object(ObjectTask::IsInstance(object, class));
    ask(vm, task, budget)
}

/// Whether the first class counts as derived from the second.
pub fn is_subclass(
    vm: &mut VirtualMachine,
    derived: PyObjectRef,
    class: PyObjectRef,
    budget: u64,
) -> Result<PyResult<bool>, RunFault>
    requires { AllHold vm.old.world (IsNode derived ∷ IsNode class ∷ []) }
    ensures { TellsTruth (Task.Object (ObjectTask.IsSubclass derived class)) budget vm.old vm.new result }
{
    let task = Task::Object(ObjectTask::IsSubclass(derived, class));
    ask(vm, task, budget)
}
