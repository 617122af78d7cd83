//! Sums and joined sequences.

ghost use Rattle.proto_ops.specs.Below.{IfOk, of_operator_task, of_step, Leaves, Reading, Reads, plain, AllHold, Holds, IsNode};
ghost use Rattle.std.specs.Prelude.{◌≡◌, ◌&&◌};
ghost use Rattle.py_node.specs.declared.task.OperatorTask.TheVariants as operator;
ghost use Rattle.proto_ops.specs.Sequences.{inplace_concat_slot, is_sequence};
ghost use Rattle.proto_ops.specs.Rows.{Begins, GoesOn, of_operator_kept};

use crate::{OperatorKept, Otherwise};
use class_world::World;
use class_world::args::both;
use class_world::natives::native_task;
use py_node::{
    Cause, OperatorTask, OutOfMemory, PyNumberBinaryOp, PyObjectRef, SlotEntry, SlotId, Step, Task,
};

/// A sum: the candidates are tried first.
pub(crate) fn begin_add(a: PyObjectRef, b: PyObjectRef) -> Step<OperatorKept>
    ensures { result ≡ Step.Ask (Task.Operator (operator.BinOp1 PyNumberBinaryOp.Add a b))
        (OperatorKept.OrElse (Otherwise.Join a b)) }
{
    Step::Ask(
        Task::Operator(OperatorTask::BinOp1(PyNumberBinaryOp::Add, a, b)),
        OperatorKept::OrElse(Otherwise::Join(a, b)),
    )
}

/// A sum that no candidate gave: sequences are joined, and nothing else.
pub(crate) fn join(world: &World, a: PyObjectRef, b: PyObjectRef) -> Step<OperatorKept>
    requires a { Holds world.now (IsNode a) }
    requires b { Holds world.now (IsNode b) }
    ensures goes { GoesOn (Otherwise.Join a b) world.now world.now result }
    ensures safe { AllHold world.now (of_step of_operator_kept result) }
{
    match world.slot(a, SlotId::SeqItem) {
        Some(_) => {
            let task = OperatorTask::Concat(a, b);
            Step::Ask(Task::Operator(task), OperatorKept::Pass)
        }
        None => Step::raise(Cause::UnsupportedOperand),
    }
}

/// A sum in place: the operator in place is tried first.
pub(crate) fn begin_inplace_add(a: PyObjectRef, b: PyObjectRef) -> Step<OperatorKept>
    ensures { result ≡ Step.Ask (Task.Operator (operator.InplaceOp1 PyNumberBinaryOp.Add a b))
        (OperatorKept.OrElse (Otherwise.InplaceJoin a b)) }
{
    Step::Ask(
        Task::Operator(OperatorTask::InplaceOp1(PyNumberBinaryOp::Add, a, b)),
        OperatorKept::OrElse(Otherwise::InplaceJoin(a, b)),
    )
}

/// A sum in place that the operator did not give: sequences are joined in place, and nothing else.
pub(crate) fn inplace_join(world: &World, a: PyObjectRef, b: PyObjectRef) -> Step<OperatorKept>
    requires a { Holds world.now (IsNode a) }
    requires b { Holds world.now (IsNode b) }
    ensures goes { GoesOn (Otherwise.InplaceJoin a b) world.now world.now result }
    ensures safe { AllHold world.now (of_step of_operator_kept result) }
{
    match world.slot(a, SlotId::SeqItem) {
        Some(_) => {
            let task = OperatorTask::InplaceConcat(a, b);
            Step::Ask(Task::Operator(task), OperatorKept::Pass)
        }
        None => Step::raise(Cause::UnsupportedOperand),
    }
}

// Whether an object's class has items by their places.
pub(crate) fn is_sequence(world: &World, a: PyObjectRef) -> bool
    requires { Holds world.now (IsNode a) }
    ensures { (t : Reading) → Reads t world.now → is_sequence (plain t world.now) a ≡ result }
{
    world.slot(a, SlotId::SeqItem).is_some()
}

/// Sequences are joined by the native of the left operand's class, or else by the operator of numbers.
pub(crate) fn begin_concat(
    world: &World,
    a: PyObjectRef,
    b: PyObjectRef,
) -> Result<Step<OperatorKept>, OutOfMemory>
    requires { AllHold world.now (of_operator_task (operator.Concat a b)) }
    ensures goes { IfOk result (λ step. Begins (operator.Concat a b) world.now world.now step) }
    ensures safe { Leaves of_operator_kept world.now world.now result }
{
    if let Some(SlotEntry::Native(native)) = world.slot(a, SlotId::Concat) {
        let alloc = world.alloc();
        let args = both(alloc, a, b)?;
        let task = native_task(native, args, Vec::new(alloc));
        return Ok(Step::Ask(task, OperatorKept::Pass));
    }
    if !(is_sequence(world, a) && is_sequence(world, b)) {
        return Ok(Step::raise(Cause::NotConcatenable));
    }
    Ok(tried_again(OperatorTask::BinOp1(PyNumberBinaryOp::Add, a, b)))
}

// The operator of numbers is tried once more, and sequences that it is not for cannot be joined.
fn tried_again(operator: OperatorTask) -> Step<OperatorKept>
    ensures { result ≡ Step.Ask (Task.Operator operator) (OperatorKept.OrElse Otherwise.NotConcatenable) }
{
    Step::Ask(
        Task::Operator(operator),
        OperatorKept::OrElse(Otherwise::NotConcatenable),
    )
}

// What a class has for joining in place, or else for joining.
fn inplace_concat_slot(world: &World, a: PyObjectRef) -> Option<SlotEntry>
    requires { Holds world.now (IsNode a) }
    ensures { (t : Reading) → Reads t world.now → inplace_concat_slot (plain t world.now) a ≡ result }
{
    match world.slot(a, SlotId::InplaceConcat) {
        Some(entry) => Some(entry),
        None => world.slot(a, SlotId::Concat),
    }
}

/// The same in place, by the operator in place.
pub(crate) fn begin_inplace_concat(
    world: &World,
    a: PyObjectRef,
    b: PyObjectRef,
) -> Result<Step<OperatorKept>, OutOfMemory>
    requires { AllHold world.now (of_operator_task (operator.InplaceConcat a b)) }
    ensures goes { IfOk result (λ step. Begins (operator.InplaceConcat a b) world.now world.now step) }
    ensures safe { Leaves of_operator_kept world.now world.now result }
{
    if let Some(SlotEntry::Native(native)) = inplace_concat_slot(world, a) {
        let alloc = world.alloc();
        let args = both(alloc, a, b)?;
        let task = native_task(native, args, Vec::new(alloc));
        return Ok(Step::Ask(task, OperatorKept::Pass));
    }
    if !(is_sequence(world, a) && is_sequence(world, b)) {
        return Ok(Step::raise(Cause::NotConcatenable));
    }
    Ok(tried_again(OperatorTask::InplaceOp1(PyNumberBinaryOp::Add, a, b)))
}
