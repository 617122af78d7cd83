//! Attributes of objects, and methods.

ghost use Rattle.vm_calls.specs.Below.{[], of_args, of_method, of_setter, AllHold, IsName, IsNode, of_node_ref, of_option};
ghost use Rattle.std.specs.Prelude.{◌∷◌, ◌++◌};
ghost use Rattle.vm_calls.specs.Told.{TellsDone, TellsMaybe, TellsMethod, TellsObject, TellsTruth};

use crate::asked::ask;
use py_node::task::{Args, Keywords};
use py_node::{AttributeTask, PyMethod, PyObjectRef, PyResult, PySetterValue, PyStrInterned, Task};
use vm_eval::{RunFault, VirtualMachine};

/// An object's attribute.
pub fn get_attr(
    vm: &mut VirtualMachine,
    object: PyObjectRef,
    name: PyStrInterned,
    budget: u64,
) -> Result<PyResult<PyObjectRef>, RunFault>
    requires { AllHold vm.old.world (IsNode object ∷ IsName name ∷ []) }
    ensures { TellsObject (Task.Attribute (AttributeTask.GetAttr object name)) budget vm.old vm.new result }
{
    let task = Task::Attribute(AttributeTask::GetAttr(object, name));
    ask(vm, task, budget)
}

/// Gives an object's attribute a value.
pub fn set_attr_obj(
    vm: &mut VirtualMachine,
    object: PyObjectRef,
    name: PyStrInterned,
    value: PyObjectRef,
    budget: u64,
) -> Result<PyResult<()>, RunFault>
    requires { AllHold vm.old.world (IsNode object ∷ IsName name ∷ IsNode value ∷ []) }
    ensures { TellsDone (Task.Attribute (AttributeTask.SetAttr object name (PySetterValue.Assign value)))
        budget vm.old vm.new result }
{
    let task = Task::Attribute(AttributeTask::SetAttr(object, name, PySetterValue::Assign(value)));
    ask(vm, task, budget)
}

/// Takes an object's attribute out.
pub fn del_attr(
    vm: &mut VirtualMachine,
    object: PyObjectRef,
    name: PyStrInterned,
    budget: u64,
) -> Result<PyResult<()>, RunFault>
    requires { AllHold vm.old.world (IsNode object ∷ IsName name ∷ []) }
    ensures { TellsDone (Task.Attribute (AttributeTask.SetAttr object name PySetterValue.Delete))
        budget vm.old vm.new result }
{
    let task = Task::Attribute(AttributeTask::SetAttr(object, name, PySetterValue::Delete));
    ask(vm, task, budget)
}

/// Gives an object's attribute a value, or takes it out.
pub fn call_set_attr(
    vm: &mut VirtualMachine,
    object: PyObjectRef,
    name: PyStrInterned,
    value: PySetterValue,
    budget: u64,
) -> Result<PyResult<()>, RunFault>
    requires { AllHold vm.old.world (IsNode object ∷ IsName name ∷ of_setter value) }
    ensures { TellsDone (Task.Attribute (AttributeTask.SetAttr object name value)) budget vm.old vm.new result }
{
    let task = Task::Attribute(AttributeTask::SetAttr(object, name, value));
    ask(vm, task, budget)
}

/// Whether an object has an attribute that isn't None.
pub fn has_attr_obj(
    vm: &mut VirtualMachine,
    object: PyObjectRef,
    name: PyStrInterned,
    budget: u64,
) -> Result<PyResult<bool>, RunFault>
    requires { AllHold vm.old.world (IsNode object ∷ IsName name ∷ []) }
    ensures { TellsTruth (Task.Attribute (AttributeTask.HasAttr object name)) budget vm.old vm.new result }
{
    let task = Task::Attribute(AttributeTask::HasAttr(object, name));
    ask(vm, task, budget)
}

/// An object's attribute, as objects have them, whatever its class says of that.
pub fn generic_getattr(
    vm: &mut VirtualMachine,
    object: PyObjectRef,
    name: PyStrInterned,
    budget: u64,
) -> Result<PyResult<PyObjectRef>, RunFault>
    requires { AllHold vm.old.world (IsNode object ∷ IsName name ∷ []) }
    ensures { TellsObject (Task.Attribute (AttributeTask.Generic object name)) budget vm.old vm.new result }
{
    let task = Task::Attribute(AttributeTask::Generic(object, name));
    ask(vm, task, budget)
}

/// The same, or that there is none. The dict that is given, if any, stands for the object's own.
pub fn generic_getattr_opt(
    vm: &mut VirtualMachine,
    object: PyObjectRef,
    name: PyStrInterned,
    dict: Option<PyObjectRef>,
    budget: u64,
) -> Result<PyResult<Option<PyObjectRef>>, RunFault>
    requires { AllHold vm.old.world (IsNode object ∷ IsName name ∷ of_option of_node_ref dict) }
    ensures { TellsMaybe (Task.Attribute (AttributeTask.GenericOpt object name dict)) budget vm.old vm.new result }
{
    let task = Task::Attribute(AttributeTask::GenericOpt(object, name, dict));
    ask(vm, task, budget)
}

/// Gives an object's attribute a value, or takes it out, as objects do, whatever its class says of that.
pub fn generic_setattr(
    vm: &mut VirtualMachine,
    object: PyObjectRef,
    name: PyStrInterned,
    value: PySetterValue,
    budget: u64,
) -> Result<PyResult<()>, RunFault>
    requires { AllHold vm.old.world (IsNode object ∷ IsName name ∷ of_setter value) }
    ensures { TellsDone (Task.Attribute (AttributeTask.GenericSet object name value)) budget vm.old vm.new result }
{
    let task = Task::Attribute(AttributeTask::GenericSet(object, name, value));
    ask(vm, task, budget)
}

/// An object's attribute, to be called at once.
pub fn method_get(
    vm: &mut VirtualMachine,
    object: PyObjectRef,
    name: PyStrInterned,
    budget: u64,
) -> Result<PyResult<PyMethod>, RunFault>
    requires { AllHold vm.old.world (IsNode object ∷ IsName name ∷ []) }
    ensures { TellsMethod (Task.Attribute (AttributeTask.LoadMethod object name)) budget vm.old vm.new result }
{
    let task = Task::Attribute(AttributeTask::LoadMethod(object, name));
    ask(vm, task, budget)
}

/// Calls a method that was loaded.
pub fn invoke(
    vm: &mut VirtualMachine,
    method: PyMethod,
    args: Args,
    kw: Keywords,
    budget: u64,
) -> Result<PyResult<PyObjectRef>, RunFault>
    requires { AllHold vm.old.world (of_method method ++ of_args args.items kw.items) }
    ensures { TellsObject (Task.Attribute (AttributeTask.Invoke method args kw)) budget vm.old vm.new result }
{
    let task = Task::Attribute(AttributeTask::Invoke(method, args, kw));
    ask(vm, task, budget)
}

/// Calls a method that was loaded and is kept.
pub fn invoke_ref(
    vm: &mut VirtualMachine,
    method: &PyMethod,
    args: Args,
    kw: Keywords,
    budget: u64,
) -> Result<PyResult<PyObjectRef>, RunFault>
    requires { AllHold vm.old.world (of_method method.now ++ of_args args.items kw.items) }
    ensures { TellsObject (Task.Attribute (AttributeTask.Invoke method.now args kw)) budget vm.old vm.new result }
{
    let task = Task::Attribute(AttributeTask::Invoke(*method, args, kw));
    ask(vm, task, budget)
}
