//! What objects stand for as truth values, as whole numbers and as lengths.

ghost use Rattle.vm_calls.specs.Below.{[], Reading, Reads, plain, AllHold, Holds, IsNode};
ghost use Rattle.std.specs.Prelude.{◌≡◌, ◌∷◌};
ghost use Rattle.vm_calls.specs.Tests.{has_index, has_length};
ghost use Rattle.vm_calls.specs.Told.{TellsLength, TellsLengthOpt, TellsLengthOr, TellsLengthWhere, TellsObject, TellsObjectWhere, TellsOpposite, TellsTruth};

use crate::asked::{ask, ask_some, none_told};
use class_world::World;
use py_node::protocol::ProtocolTask;
use py_node::{PyObjectRef, PyResult, SlotId, Task};
use vm_eval::{RunFault, VirtualMachine};

/// Whether an object counts as true.
pub fn is_true(
    vm: &mut VirtualMachine,
    object: PyObjectRef,
    budget: u64,
) -> Result<PyResult<bool>, RunFault>
    requires { AllHold vm.old.world (IsNode object ∷ []) }
    ensures { TellsTruth (Task.Protocol (ProtocolTask.IsTrue object)) budget vm.old vm.new result }
{
    let task = Task::Protocol(ProtocolTask::IsTrue(object));
    ask(vm, task, budget)
}

/// Whether an object counts as false.
pub fn not(
    vm: &mut VirtualMachine,
    object: PyObjectRef,
    budget: u64,
) -> Result<PyResult<bool>, RunFault>
    requires { AllHold vm.old.world (IsNode object ∷ []) }
    ensures { TellsOpposite (Task.Protocol (ProtocolTask.IsTrue object)) budget vm.old vm.new result }
{
    match is_true(vm, object, budget)? {
        PyResult::Done(truth) => Ok(PyResult::Done(!truth)),
        other => Ok(other),
    }
}

/// An object as a whole number that it stands for exactly.
pub fn try_index(
    vm: &mut VirtualMachine,
    object: PyObjectRef,
    budget: u64,
) -> Result<PyResult<PyObjectRef>, RunFault>
    requires { AllHold vm.old.world (IsNode object ∷ []) }
    ensures { TellsObject (Task.Protocol (ProtocolTask.Index object)) budget vm.old vm.new result }
{
    let task = Task::Protocol(ProtocolTask::Index(object));
    ask(vm, task, budget)
}

/// The same, or none, where the object holds no number and its class itself has no slot for an index.
pub fn try_index_opt(
    vm: &mut VirtualMachine,
    object: PyObjectRef,
    budget: u64,
) -> Result<PyResult<Option<PyObjectRef>>, RunFault>
    requires { AllHold vm.old.world (IsNode object ∷ []) }
    ensures { TellsObjectWhere (has_index object) (Task.Protocol (ProtocolTask.Index object))
        budget vm.old vm.new result }
{
    if !has_index(vm.world(), object) {
        return none_told(vm);
    }
    let task = Task::Protocol(ProtocolTask::Index(object));
    ask_some(vm, task, budget)
}

// Whether an object holds a number, or its class itself has a slot for an index.
fn has_index(world: &World, object: PyObjectRef) -> bool
    requires { Holds world.now (IsNode object) }
    ensures { (t : Reading) → Reads t world.now → has_index object (plain t world.now) ≡ result }
{
    world.number(object).is_some() || world.slot(object, SlotId::Index).is_some()
}

/// An object as a whole number.
pub fn try_int(
    vm: &mut VirtualMachine,
    object: PyObjectRef,
    budget: u64,
) -> Result<PyResult<PyObjectRef>, RunFault>
    requires { AllHold vm.old.world (IsNode object ∷ []) }
    ensures { TellsObject (Task.Protocol (ProtocolTask.Int object)) budget vm.old vm.new result }
{
    let task = Task::Protocol(ProtocolTask::Int(object));
    ask(vm, task, budget)
}

/// An object's length.
pub fn length(
    vm: &mut VirtualMachine,
    object: PyObjectRef,
    budget: u64,
) -> Result<PyResult<usize>, RunFault>
    requires { AllHold vm.old.world (IsNode object ∷ []) }
    ensures { TellsLength (Task.Protocol (ProtocolTask.Length object)) budget vm.old vm.new result }
{
    let task = Task::Protocol(ProtocolTask::Length(object));
    ask(vm, task, budget)
}

/// The same, or none, where the object's class has no slot for a length, as a sequence or as a mapping.
pub fn length_opt(
    vm: &mut VirtualMachine,
    object: PyObjectRef,
    budget: u64,
) -> Result<PyResult<Option<usize>>, RunFault>
    requires { AllHold vm.old.world (IsNode object ∷ []) }
    ensures { TellsLengthWhere (has_length object) (Task.Protocol (ProtocolTask.Length object))
        budget vm.old vm.new result }
{
    if !has_length(vm.world(), object) {
        return none_told(vm);
    }
    let task = Task::Protocol(ProtocolTask::Length(object));
    ask_some(vm, task, budget)
}

// Whether an object's class has a slot for a length.
fn has_length(world: &World, object: PyObjectRef) -> bool
    requires { Holds world.now (IsNode object) }
    ensures { (t : Reading) → Reads t world.now → has_length object (plain t world.now) ≡ result }
{
    world.slot(object, SlotId::SeqLength).is_some()
        || world.slot(object, SlotId::MapLength).is_some()
}

/// An object's length, or what it says to expect, or else the number that is given.
#[tactic(auto, using(crate::proofs::Hints::hint_or))]
pub fn length_hint(
    vm: &mut VirtualMachine,
    object: PyObjectRef,
    default: usize,
    budget: u64,
) -> Result<PyResult<usize>, RunFault>
    requires { AllHold vm.old.world (IsNode object ∷ []) }
    ensures { TellsLengthOr default (Task.Protocol (ProtocolTask.Hint object None)) budget vm.old vm.new result }
{
    match length_hint_opt(vm, object, budget)? {
        PyResult::Done(hint) => Ok(PyResult::Done(hint.unwrap_or(default))),
        PyResult::Raised(raised) => Ok(PyResult::Raised(raised)),
        PyResult::Budget => Ok(PyResult::Budget),
    }
}

/// An object's length, or what it says to expect, or that there is neither.
pub fn length_hint_opt(
    vm: &mut VirtualMachine,
    object: PyObjectRef,
    budget: u64,
) -> Result<PyResult<Option<usize>>, RunFault>
    requires { AllHold vm.old.world (IsNode object ∷ []) }
    ensures { TellsLengthOpt (Task.Protocol (ProtocolTask.Hint object None)) budget vm.old vm.new result }
{
    let task = Task::Protocol(ProtocolTask::Hint(object, None));
    ask(vm, task, budget)
}
