//! Products and repeated sequences.

ghost use Rattle.proto_ops.specs.Below.{Ok, IfOk, the_int, ANumber, next_node, with_node, of_operator_task, of_step, Leaves, Reading, Reads, plain, AllHold, Grows, Holds, IsNode};
ghost use Rattle.std.specs.Prelude.{◌≡◌};
ghost use Rattle.py_node.specs.declared.protocol.ProtocolTask.TheVariants as protocol;
ghost use Rattle.py_node.specs.declared.task.OperatorTask.TheVariants as operator;
ghost use Rattle.proto_ops.specs.Sequences.{inplace_repeat_slot};
ghost use Rattle.proto_ops.specs.Rows.{Begins, GoesOn, Resumes, of_operator_kept};

use crate::joins::is_sequence;
use crate::native_repeats::count_in;
use crate::{OperatorKept, Otherwise};
use class_world::World;
use py_node::protocol::ProtocolTask;
use py_node::{
    Answer, BuiltIn, Cause, OperatorTask, OutOfMemory, Payload, PyNumberBinaryOp, PyObjectRef,
    SlotEntry, SlotId, Step, Task,
};

/// A product: the candidates are tried first.
pub(crate) fn begin_mul(a: PyObjectRef, b: PyObjectRef) -> Step<OperatorKept>
    ensures { result ≡ Step.Ask (Task.Operator (operator.BinOp1 PyNumberBinaryOp.Multiply a b))
        (OperatorKept.OrElse (Otherwise.RepeatOne a b)) }
{
    Step::Ask(
        Task::Operator(OperatorTask::BinOp1(PyNumberBinaryOp::Multiply, a, b)),
        OperatorKept::OrElse(Otherwise::RepeatOne(a, b)),
    )
}

/// A product that no candidate gave: the left operand is repeated where it is a sequence, or else the right one, by
/// the index that the other stands for.
pub(crate) fn repeat_one(world: &World, a: PyObjectRef, b: PyObjectRef) -> Step<OperatorKept>
    requires a { Holds world.now (IsNode a) }
    requires b { Holds world.now (IsNode b) }
    ensures goes { GoesOn (Otherwise.RepeatOne a b) world.now world.now result }
    ensures safe { AllHold world.now (of_step of_operator_kept result) }
{
    match (
        world.slot(a, SlotId::SeqItem),
        world.slot(b, SlotId::SeqItem),
    ) {
        (Some(_), _) => index_asked(b, OperatorKept::Times(a)),
        (None, Some(_)) => index_asked(a, OperatorKept::Times(b)),
        (None, None) => Step::raise(Cause::UnsupportedOperand),
    }
}

// The index that an object stands for is asked, and this is kept.
fn index_asked(object: PyObjectRef, kept: OperatorKept) -> Step<OperatorKept>
    ensures { result ≡ Step.Ask (Task.Protocol (protocol.Index object)) kept }
{
    Step::Ask(Task::Protocol(ProtocolTask::Index(object)), kept)
}

/// A product in place: the operator in place is tried first.
pub(crate) fn begin_inplace_mul(a: PyObjectRef, b: PyObjectRef) -> Step<OperatorKept>
    ensures { result ≡ Step.Ask (Task.Operator (operator.InplaceOp1 PyNumberBinaryOp.Multiply a b))
        (OperatorKept.OrElse (Otherwise.InplaceRepeatOne a b)) }
{
    Step::Ask(
        Task::Operator(OperatorTask::InplaceOp1(PyNumberBinaryOp::Multiply, a, b)),
        OperatorKept::OrElse(Otherwise::InplaceRepeatOne(a, b)),
    )
}

/// A product in place that the operator did not give: only the left operand is repeated in place.
pub(crate) fn inplace_repeat_one(
    world: &World,
    a: PyObjectRef,
    b: PyObjectRef,
) -> Step<OperatorKept>
    requires a { Holds world.now (IsNode a) }
    requires b { Holds world.now (IsNode b) }
    ensures goes { GoesOn (Otherwise.InplaceRepeatOne a b) world.now world.now result }
    ensures safe { AllHold world.now (of_step of_operator_kept result) }
{
    match (
        world.slot(a, SlotId::SeqItem),
        world.slot(b, SlotId::SeqItem),
    ) {
        (Some(_), _) => index_asked(b, OperatorKept::InplaceTimes(a)),
        (None, Some(_)) => index_asked(a, OperatorKept::Times(b)),
        (None, None) => Step::raise(Cause::UnsupportedOperand),
    }
}

/// A sequence is repeated as often as an index says.
pub(crate) fn times(world: &World, a: PyObjectRef, index: PyObjectRef) -> Step<OperatorKept>
    requires a { Holds world.now (IsNode a) }
    requires index { Holds world.now (IsNode index) }
    ensures goes { Resumes (OperatorKept.Times a) (Ok (Answer.Value index)) world.now world.now result }
    ensures safe { AllHold world.now (of_step of_operator_kept result) }
{
    match count_in(world.number(index)) {
        Err(raised) => Step::End(Err(raised)),
        Ok(count) => {
            let task = OperatorTask::Repeat(a, count);
            Step::Ask(Task::Operator(task), OperatorKept::Pass)
        }
    }
}

/// The same in place.
pub(crate) fn inplace_times(world: &World, a: PyObjectRef, index: PyObjectRef) -> Step<OperatorKept>
    requires a { Holds world.now (IsNode a) }
    requires index { Holds world.now (IsNode index) }
    ensures goes { Resumes (OperatorKept.InplaceTimes a) (Ok (Answer.Value index)) world.now world.now result }
    ensures safe { AllHold world.now (of_step of_operator_kept result) }
{
    match count_in(world.number(index)) {
        Err(raised) => Step::End(Err(raised)),
        Ok(count) => {
            let task = OperatorTask::InplaceRepeat(a, count);
            Step::Ask(Task::Operator(task), OperatorKept::Pass)
        }
    }
}

/// A sequence is repeated by the native of its class, or else by the operator of numbers, with a new number.
pub(crate) fn begin_repeat(
    world: &mut World,
    a: PyObjectRef,
    count: i64,
) -> Result<Step<OperatorKept>, OutOfMemory>
    requires { Holds world.old (IsNode a) }
    ensures goes { IfOk result (λ step. Begins (operator.Repeat a count) world.old world.new step) }
    ensures safe { Leaves of_operator_kept world.old world.new result }
{
    if let Some(SlotEntry::Native(native)) = world.slot(a, SlotId::Repeat) {
        let task = OperatorTask::NativeRepeat(native, a, count);
        return Ok(Step::Ask(Task::Operator(task), OperatorKept::Pass));
    }
    if !is_sequence(world, a) {
        return Ok(Step::raise(Cause::NotRepeatable));
    }
    let number = new_number(world, count)?;
    Ok(Step::Ask(
        Task::Operator(OperatorTask::BinOp1(PyNumberBinaryOp::Multiply, a, number)),
        OperatorKept::OrElse(Otherwise::NotRepeatable),
    ))
}

// What a class has for repeating in place, or else for repeating.
fn inplace_repeat_slot(world: &World, a: PyObjectRef) -> Option<SlotEntry>
    requires { Holds world.now (IsNode a) }
    ensures { (t : Reading) → Reads t world.now → inplace_repeat_slot (plain t world.now) a ≡ result }
{
    match world.slot(a, SlotId::InplaceRepeat) {
        Some(entry) => Some(entry),
        None => world.slot(a, SlotId::Repeat),
    }
}

/// The same in place, by the operator in place.
pub(crate) fn begin_inplace_repeat(
    world: &mut World,
    a: PyObjectRef,
    count: i64,
) -> Result<Step<OperatorKept>, OutOfMemory>
    requires { Holds world.old (IsNode a) }
    ensures goes { IfOk result (λ step. Begins (operator.InplaceRepeat a count) world.old world.new step) }
    ensures safe { Leaves of_operator_kept world.old world.new result }
{
    if let Some(SlotEntry::Native(native)) = inplace_repeat_slot(world, a) {
        let task = OperatorTask::NativeRepeat(native, a, count);
        return Ok(Step::Ask(Task::Operator(task), OperatorKept::Pass));
    }
    if !is_sequence(world, a) {
        return Ok(Step::raise(Cause::NotRepeatable));
    }
    let number = new_number(world, count)?;
    Ok(Step::Ask(
        Task::Operator(OperatorTask::InplaceOp1(PyNumberBinaryOp::Multiply, a, number)),
        OperatorKept::OrElse(Otherwise::NotRepeatable),
    ))
}

// A new whole number.
#[tactic(auto, unfolding(crate::specs::Say::operator_say, py_node::specs::BuiltIns::place_of))]
fn new_number(world: &mut World, number: i64) -> Result<PyObjectRef, OutOfMemory>
    ensures made { IfOk result (λ r. (t : Reading) →
        plain t world.new ≡ with_node (plain t world.old) the_int (ANumber number)) }
    ensures number { IfOk result (λ r. (t : Reading) → r ≡ next_node (plain t world.old) the_int) }
    ensures reads { (t : Reading) → Reads t world.new → Reads t world.old }
    ensures grows { Grows world.old world.new }
    ensures node { IfOk result (λ r. Holds world.new (IsNode r)) }
{
    let class = world.built_in(BuiltIn::Int);
    let node = world.make_node(class, Payload::Number(number as i128))?;
    Ok(node)
}
