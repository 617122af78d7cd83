//! The natives of `int` that stand in this group.

ghost use Rattle.proto_ops.specs.Below.{IfOk, two_of, of_operator_task, Leaves, AllHold, Holds, IsNode};
ghost use Rattle.std.specs.Prelude.{◌≡◌};
ghost use Rattle.py_node.specs.declared.task.OperatorTask.TheVariants as operator;
ghost use Rattle.proto_ops.specs.Rows.{Begins, Sums, of_operator_kept};
ghost use Rattle.proto_ops.specs.Say.{total};

use crate::OperatorKept;
use class_world::args::two_of;
use class_world::{Fixed, World};
use py_node::task::{Args, Keywords};
use py_node::{Answer, BuiltIn, Cause, IntNative, OutOfMemory, Payload, PyObjectRef, Step};

/// A native of `int`: the sum of two whole numbers.
pub(crate) fn begin_int(
    world: &mut World,
    native: IntNative,
    args: Args,
    kw: Keywords,
) -> Result<Step<OperatorKept>, OutOfMemory>
    requires { AllHold world.old (of_operator_task (operator.Int native args kw)) }
    ensures goes { IfOk result (λ step. Begins (operator.Int native args kw) world.old world.new step) }
    ensures safe { Leaves of_operator_kept world.old world.new result }
{
    match two_of(&args) {
        None => Ok(Step::raise(Cause::ArgCount)),
        Some((a, b)) => {
            if !kw.is_empty() {
                return Ok(Step::raise(Cause::UnexpectedKeyword));
            }
            sum(world, a, b)
        }
    }
}

// The sum of two whole numbers, or NotImplemented where one is none.
fn sum(world: &mut World, a: PyObjectRef, b: PyObjectRef) -> Result<Step<OperatorKept>, OutOfMemory>
    requires a { Holds world.old (IsNode a) }
    requires b { Holds world.old (IsNode b) }
    ensures goes { IfOk result (λ step. Sums a b world.old world.new step) }
    ensures safe { Leaves of_operator_kept world.old world.new result }
{
    match (world.number(a), world.number(b)) {
        (Some(x), Some(y)) => match total(x, y) {
            Some(z) => {
                let class = world.built_in(BuiltIn::Int);
                let node = world.make_node(class, Payload::Number(z))?;
                Ok(Step::End(Ok(Answer::Value(node))))
            }
            None => Ok(Step::raise(Cause::IntRange)),
        },
        _ => Ok(Step::End(Ok(Answer::Value(world.fixed(Fixed::NotImplemented))))),
    }
}

// The sum of two numbers, where it fits.
fn total(x: i128, y: i128) -> Option<i128>
    ensures { result ≡ total x y }
{
    x.checked_add(y)
}
