//! What a comparison gives: both operands' classes are asked in turn.

ghost use Rattle.proto_ops.specs.Below.{Ok, IfOk, of_compare_task, of_step, Leaves, Reading, plain, AllHold, Holds, IsNode, is_not_implemented, class_at};
ghost use Rattle.std.specs.Prelude.{◌≡◌};
ghost use Rattle.py_node.specs.declared.protocol.CompareTask.TheVariants as compare;
ghost use Rattle.proto_ops.specs.ProtoCompare.Comparisons.{swapped};
ghost use Rattle.proto_ops.specs.ProtoCompare.Say.{built_in_native, is_heir, native_for, object_native};
ghost use Rattle.proto_ops.specs.ProtoCompare.Rows.{Begins, Resumes, of_compare_kept};

use crate::proto_compare::CompareKept;
use crate::proto_compare::comparisons::{method_name, swapped};
use class_world::World;
use class_world::args::{alone, both};
use class_world::natives::native_task;
use py_node::{
    Answer, AttributeTask, Cause, CompareNative, CompareTask, NativeEntry, ObjectNative,
    OutOfMemory, PyComparisonOp, PyObjectRef, SlotEntry, SlotId, Step, Task,
};
use row_kit::questions::is_not_implemented;

// The left operand is asked first, unless the class of the right one derives from its class.
pub(crate) fn compare(
    world: &World,
    a: PyObjectRef,
    b: PyObjectRef,
    op: PyComparisonOp,
) -> Step<CompareKept>
    requires { AllHold world.now (of_compare_task (compare.Compare a b op)) }
    ensures goes { Begins (compare.Compare a b op) world.now world.now result }
    ensures safe { AllHold world.now (of_step of_compare_kept result) }
{
    if is_heir(world, a, b) {
        Step::Ask(ask_right(a, b, op), CompareKept::First(true, a, b, op))
    } else {
        Step::Ask(ask_left(a, b, op), CompareKept::First(false, a, b, op))
    }
}

// What the left operand's class says.
fn ask_left(a: PyObjectRef, b: PyObjectRef, op: PyComparisonOp) -> Task
    ensures { result ≡ Task.Compare (compare.Cmp a b op) }
{
    Task::Compare(CompareTask::Cmp(a, b, op))
}

// What the right operand's class says, of the operands the other way round.
fn ask_right(a: PyObjectRef, b: PyObjectRef, op: PyComparisonOp) -> Task
    ensures { result ≡ Task.Compare (compare.Cmp b a (swapped op)) }
{
    Task::Compare(CompareTask::Cmp(b, a, swapped(op)))
}

// Whether the class of the second operand is another one than that of the first, and derives from it.
fn is_heir(world: &World, a: PyObjectRef, b: PyObjectRef) -> bool
    requires a { Holds world.now (IsNode a) }
    requires b { Holds world.now (IsNode b) }
    ensures { (t : Reading) →
        is_heir (plain t world.now) (class_at (plain t world.now) a) (class_at (plain t world.now) b) ≡ result }
{
    let class = world.class_of(a);
    let other = world.class_of(b);
    class.0 != other.0 && world.is_sub(other, class)
}

// Where the operand that was asked first says nothing, the other one is asked.
pub(crate) fn ask_other(
    right_first: bool,
    a: PyObjectRef,
    b: PyObjectRef,
    op: PyComparisonOp,
    x: PyObjectRef,
) -> Step<CompareKept>
    ensures goes { (w : World) → Resumes (CompareKept.First right_first a b op) (Ok (Answer.Value x)) w w result }
    ensures safe { (w : World) → Holds w (IsNode a) → Holds w (IsNode b) → Holds w (IsNode x) →
        AllHold w (of_step of_compare_kept result) }
{
    if !is_not_implemented(x) {
        Step::End(Ok(Answer::Value(x)))
    } else if right_first {
        Step::Ask(ask_left(a, b, op), CompareKept::Second(a, b, op))
    } else {
        Step::Ask(ask_right(a, b, op), CompareKept::Second(a, b, op))
    }
}

// Where neither says anything, objects are equal that are one, and have no order.
pub(crate) fn by_identity(
    world: &World,
    a: PyObjectRef,
    b: PyObjectRef,
    op: PyComparisonOp,
    x: PyObjectRef,
) -> Step<CompareKept>
    requires { Holds world.now (IsNode x) }
    ensures goes { Resumes (CompareKept.Second a b op) (Ok (Answer.Value x)) world.now world.now result }
    ensures safe { AllHold world.now (of_step of_compare_kept result) }
{
    if !is_not_implemented(x) {
        return Step::End(Ok(Answer::Value(x)));
    }
    match op {
        PyComparisonOp::Eq => Step::End(Ok(Answer::Value(world.truth(a.0 == b.0)))),
        PyComparisonOp::Ne => Step::End(Ok(Answer::Value(world.truth(a.0 != b.0)))),
        _ => Step::raise(Cause::UnsupportedOperand),
    }
}

// What an object's class says of a comparison: its native, or its special method.
pub(crate) fn cmp(
    world: &World,
    a: PyObjectRef,
    b: PyObjectRef,
    op: PyComparisonOp,
) -> Result<Step<CompareKept>, OutOfMemory>
    requires { AllHold world.now (of_compare_task (compare.Cmp a b op)) }
    ensures goes { IfOk result (λ step. Begins (compare.Cmp a b op) world.now world.now step) }
    ensures safe { Leaves of_compare_kept world.now world.now result }
{
    let alloc = world.alloc();
    match world.slot(a, SlotId::Richcompare) {
        Some(SlotEntry::Native(native)) => {
            let args = both(alloc, a, b)?;
            let task = native_task(native_for(native, op), args, Vec::new(alloc));
            Ok(Step::Ask(task, CompareKept::Pass))
        }
        _ => {
            let args = alone(alloc, b)?;
            let name = world.known(method_name(op));
            let task = AttributeTask::Special(a, name, args, Vec::new(alloc));
            Ok(Step::Ask(Task::Attribute(task), CompareKept::Pass))
        }
    }
}

// The native of a comparison, of those that a slot has.
fn native_for(native: NativeEntry, op: PyComparisonOp) -> NativeEntry
    ensures { result ≡ native_for native op }
{
    match native {
        NativeEntry::OfObject(_) => NativeEntry::OfObject(object_native(op)),
        NativeEntry::Compare(class, _) => NativeEntry::Compare(class, built_in_native(op)),
        other => other,
    }
}

fn object_native(op: PyComparisonOp) -> ObjectNative
    ensures { result ≡ object_native op }
{
    match op {
        PyComparisonOp::Lt => ObjectNative::Lt,
        PyComparisonOp::Gt => ObjectNative::Gt,
        PyComparisonOp::Ne => ObjectNative::Ne,
        PyComparisonOp::Eq => ObjectNative::Eq,
        PyComparisonOp::Le => ObjectNative::Le,
        PyComparisonOp::Ge => ObjectNative::Ge,
    }
}

fn built_in_native(op: PyComparisonOp) -> CompareNative
    ensures { result ≡ built_in_native op }
{
    match op {
        PyComparisonOp::Lt => CompareNative::Lt,
        PyComparisonOp::Gt => CompareNative::Gt,
        PyComparisonOp::Ne => CompareNative::Ne,
        PyComparisonOp::Eq => CompareNative::Eq,
        PyComparisonOp::Le => CompareNative::Le,
        PyComparisonOp::Ge => CompareNative::Ge,
    }
}
