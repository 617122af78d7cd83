//! New objects that calls need: the number of a place, and what is made of the items of an object.

ghost use Rattle.vm_calls.specs.Below.{[], None, the_int, ANumber, datum, AllHold, AreNodes, Holds, IsClass, IsNode, IsOf, class_in, home_of, of_payload};
ghost use Rattle.std.specs.Prelude.{◌≡◌, ◌∷◌};
ghost use Rattle.vm_calls.specs.Views.{MakesNode, TellsItems, TellsMadeOf, class_of, datum_of};

use crate::asked::ask;
use class_world::limits::is_within_limit;
use py_node::{
    BuiltIn, Cause, Payload, ProtocolTask, PyObjectRef, PyResult, PyTypeRef, Raised, Task,
};
use vm_eval::{RunFault, VirtualMachine};

/// What is made of the items of an object.
#[derive(Clone, Copy)]
pub(crate) enum Made {
    Tuple,
    List,
}

// A new object.
pub(crate) fn new_node(
    vm: &mut VirtualMachine,
    class: PyTypeRef,
    payload: Payload,
) -> Result<PyObjectRef, RunFault>
    requires class { Holds vm.old.world (IsClass class.0) }
    requires of { Holds vm.old.world (IsOf class.0 (home_of payload)) }
    requires payload { AllHold vm.old.world (of_payload payload) }
    requires other { class_in payload ≡ None }
    ensures { MakesNode class.0 (λ t. datum t payload) vm.old vm.new result }
{
    vm.make_node(class, payload)
}

// A new whole number.
#[tactic(auto, unfolding(py_node::specs::BuiltIns::place_of))]
pub(crate) fn new_number(vm: &mut VirtualMachine, number: i64) -> Result<PyObjectRef, RunFault>
    ensures { MakesNode the_int (λ t. ANumber number) vm.old vm.new result }
{
    let class = vm.world().built_in(BuiltIn::Int);
    new_node(vm, class, Payload::Number(number as i128))
}

// A new tuple or list.
#[tactic(auto, unfolding(py_node::specs::BuiltIns::place_of))]
fn new_of_items(
    vm: &mut VirtualMachine,
    made: Made,
    items: Vec<PyObjectRef>,
) -> Result<PyObjectRef, RunFault>
    requires { AllHold vm.old.world (AreNodes items.items ∷ []) }
    ensures { MakesNode (class_of made) (λ t. datum_of made items.items) vm.old vm.new result }
{
    match made {
        Made::Tuple => {
            let class = vm.world().built_in(BuiltIn::Tuple);
            new_node(vm, class, Payload::Tuple(items))
        }
        Made::List => {
            let class = vm.world().built_in(BuiltIn::List);
            new_node(vm, class, Payload::List(items))
        }
    }
}

// The items of an object.
pub(crate) fn items(
    vm: &mut VirtualMachine,
    object: PyObjectRef,
    budget: u64,
) -> Result<PyResult<Vec<PyObjectRef>>, RunFault>
    requires { AllHold vm.old.world (IsNode object ∷ []) }
    ensures { TellsItems object budget vm.old vm.new result }
{
    let task = Task::Protocol(ProtocolTask::Collect(object));
    ask(vm, task, budget)
}

// A new tuple or list of the items of an object.
pub(crate) fn made_of_items(
    vm: &mut VirtualMachine,
    object: PyObjectRef,
    made: Made,
    budget: u64,
) -> Result<PyResult<PyObjectRef>, RunFault>
    requires { AllHold vm.old.world (IsNode object ∷ []) }
    ensures { TellsMadeOf (class_of made) (datum_of made) object budget vm.old vm.new result }
{
    match items(vm, object, budget)? {
        PyResult::Done(items) => {
            if !is_within_limit(items.len()) {
                return Ok(PyResult::Raised(Raised::new(Cause::TooLong)));
            }
            let node = new_of_items(vm, made, items)?;
            Ok(PyResult::Done(node))
        }
        PyResult::Raised(raised) => Ok(PyResult::Raised(raised)),
        PyResult::Budget => Ok(PyResult::Budget),
    }
}
