//! Powers, which have a third operand: a modulus, or None.

ghost use Rattle.proto_ops.specs.Below.{Some, None, length, not, of_operator_task, of_step, Reading, Reads, plain, AllHold, Holds, IsNode, class_at, slot_at};
ghost use Rattle.std.specs.Prelude.{◌≡◌, ◌==◌, ◌&&◌};
ghost use Rattle.py_node.specs.declared.task.OperatorTask.TheVariants as operator;
ghost use Rattle.py_node.specs.declared.entry.SlotId.TheVariants as slot;
ghost use Rattle.proto_ops.specs.Powers.{third_of};
ghost use Rattle.proto_ops.specs.Rows.{Begins, GoesOn, entries_of, of_operator_kept, way_of};

use crate::{OperatorKept, Otherwise};
use class_world::World;
use py_node::{Cause, OperatorTask, PyObjectRef, SlotEntry, SlotId, Step, Task};

/// The candidates of a power, and whether a third one may count: the modulus's own slot.
#[derive(Clone, Copy)]
pub struct Tried {
    pub first: SlotEntry,
    pub second: Option<SlotEntry>,
    pub third: bool,
}

/// A power: the candidates are read once, and the first is entered.
pub(crate) fn begin_power(
    world: &World,
    a: PyObjectRef,
    b: PyObjectRef,
    c: PyObjectRef,
) -> Step<OperatorKept>
    requires { AllHold world.now (of_operator_task (operator.Power a b c)) }
    ensures goes { Begins (operator.Power a b c) world.now world.now result }
    ensures safe { AllHold world.now (of_step of_operator_kept result) }
{
    let candidates = world.candidates(SlotId::Power, SlotId::RightPower, a, b);
    match (candidates.first, candidates.second) {
        (Some(first), second) => {
            let third = second.is_some() && !candidates.is_right_first;
            power_first(first, second, third, a, b, c)
        }
        (None, Some(first)) => power_first(first, None, false, a, b, c),
        (None, None) => Step::raise(Cause::UnsupportedOperand),
    }
}

// The first candidate is entered. What is kept is all of them, and the operands.
fn power_first(
    first: SlotEntry,
    second: Option<SlotEntry>,
    third: bool,
    a: PyObjectRef,
    b: PyObjectRef,
    c: PyObjectRef,
) -> Step<OperatorKept>
    ensures { result ≡ Step.Ask (Task.Operator (operator.EnterPower first a b c))
        (OperatorKept.OrElse (Otherwise.PowerFirst
        (record { first = first; second = second; third = third }) a b c)) }
{
    let tried = Tried {
        first,
        second,
        third,
    };
    Step::Ask(
        Task::Operator(OperatorTask::EnterPower(first, a, b, c)),
        OperatorKept::OrElse(Otherwise::PowerFirst(tried, a, b, c)),
    )
}

/// The second candidate of a power is entered, if there is one, or else the modulus's slot.
pub(crate) fn power_next(
    world: &World,
    tried: Tried,
    a: PyObjectRef,
    b: PyObjectRef,
    c: PyObjectRef,
) -> Step<OperatorKept>
    requires a { Holds world.now (IsNode a) }
    requires b { Holds world.now (IsNode b) }
    requires c { Holds world.now (IsNode c) }
    ensures goes { GoesOn (Otherwise.PowerFirst tried a b c) world.now world.now result }
    ensures safe { AllHold world.now (of_step of_operator_kept result) }
{
    match tried.second {
        Some(second) => {
            let task = OperatorTask::EnterPower(second, a, b, c);
            let rest = Otherwise::PowerLast(tried, a, b, c);
            Step::Ask(Task::Operator(task), OperatorKept::OrElse(rest))
        }
        None => power_last(world, tried, a, b, c),
    }
}

/// The modulus's slot is entered as it is by now, if it counts and is none of those that were tried.
pub(crate) fn power_last(
    world: &World,
    tried: Tried,
    a: PyObjectRef,
    b: PyObjectRef,
    c: PyObjectRef,
) -> Step<OperatorKept>
    requires a { Holds world.now (IsNode a) }
    requires b { Holds world.now (IsNode b) }
    requires c { Holds world.now (IsNode c) }
    ensures goes { GoesOn (Otherwise.PowerLast tried a b c) world.now world.now result }
    ensures safe { AllHold world.now (of_step of_operator_kept result) }
{
    match third_of(tried, world.slot(c, SlotId::Power)) {
        None => Step::raise(Cause::UnsupportedOperand),
        Some(entry) => {
            let task = OperatorTask::EnterPower(entry, a, b, c);
            let rest = Otherwise::Unsupported;
            Step::Ask(Task::Operator(task), OperatorKept::OrElse(rest))
        }
    }
}

// The modulus's slot, if it counts and is none of those that were tried.
fn third_of(tried: Tried, entry: Option<SlotEntry>) -> Option<SlotEntry>
    ensures { result ≡ third_of (way_of tried.third) (entries_of tried) entry }
{
    if !tried.third {
        return None;
    }
    match entry {
        None => None,
        Some(entry) => {
            if entry.is_same(tried.first) {
                return None;
            }
            match tried.second {
                Some(second) if entry.is_same(second) => None,
                _ => Some(entry),
            }
        }
    }
}

/// A power in place: the left operand's slot for that is entered without the modulus, if it has one.
pub(crate) fn begin_inplace_power(
    world: &World,
    a: PyObjectRef,
    b: PyObjectRef,
    c: PyObjectRef,
) -> Step<OperatorKept>
    requires { AllHold world.now (of_operator_task (operator.InplacePower a b c)) }
    ensures goes { Begins (operator.InplacePower a b c) world.now world.now result }
    ensures safe { AllHold world.now (of_step of_operator_kept result) }
{
    match world.slot(a, SlotId::InplacePower) {
        None => plain_power(a, b, c),
        Some(entry) => {
            let task = OperatorTask::Enter(entry, a, b);
            let rest = Otherwise::Power(a, b, c);
            Step::Ask(Task::Operator(task), OperatorKept::OrElse(rest))
        }
    }
}

/// The power as if it were not in place.
pub(crate) fn plain_power(a: PyObjectRef, b: PyObjectRef, c: PyObjectRef) -> Step<OperatorKept>
    ensures { result ≡ Step.Ask (Task.Operator (operator.Power a b c)) OperatorKept.Pass }
{
    Step::Ask(
        Task::Operator(OperatorTask::Power(a, b, c)),
        OperatorKept::Pass,
    )
}
