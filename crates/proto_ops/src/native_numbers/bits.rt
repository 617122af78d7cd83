//! The natives on the bits of two numbers, or on two truth values.

ghost use Rattle.py_node.specs.Stops.{Ended};
ghost use Rattle.proto_ops.specs.Below.{bindings, AreNodes, Holds, IsNode, EndsAs, LeavesEnd, truth_of};
ghost use Rattle.std.specs.Prelude.{◌≡◌};
ghost use Rattle.proto_ops.specs.NativeNumbers.Say.{bits_by, bits_of, bits_say, truth_by};

use crate::native_numbers::reckon::{left_shifted, right_shifted};
use class_world::World;
use class_world::takes::two;
use py_node::{Answer, BitNative, FuncArgs, PyObjectRef, Raised, Stop};
use row_kit::give::new_int;
use row_kit::int_values::truth_of;
use row_kit::take_numbers::numbers_of;

/// A native on the bits of two numbers, or on two truth values.
pub fn bits_native(world: &mut World, native: BitNative, call: FuncArgs<'_>) -> Result<Answer, Stop>
    requires { Holds world.old (AreNodes call.args.now) }
    ensures ends { Ended result (EndsAs (λ t u. bits_say u native call.entry.args.now (bindings t call.entry.kw.now))
        world.old world.new) }
    ensures safe { LeavesEnd world.old world.new result }
{
    let (a, b) = two(call)?;
    bits_of(world, native, a, b)
}

// What a native does with two objects.
fn bits_of(
    world: &mut World,
    native: BitNative,
    a: PyObjectRef,
    b: PyObjectRef,
) -> Result<Answer, Stop>
    requires a { Holds world.old (IsNode a) }
    requires b { Holds world.old (IsNode b) }
    ensures ends { Ended result (EndsAs (λ t u. bits_of u native a b) world.old world.new) }
    ensures safe { LeavesEnd world.old world.new result }
{
    match truth_by(native, truth_of(a), truth_of(b)) {
        Some(holds) => Ok(Answer::Value(world.truth(holds))),
        None => match numbers_of(world, a, b) {
            Err(answer) => Ok(answer?),
            Ok((x, y)) => new_int(world, bits_by(native, x, y)),
        },
    }
}

// The truth value that a native of `bool` gives of two.
fn truth_by(native: BitNative, a: Option<bool>, b: Option<bool>) -> Option<bool>
    ensures { result ≡ truth_by native a b }
{
    let (Some(p), Some(q)) = (a, b) else {
        return None;
    };
    match native {
        BitNative::BooleanAnd | BitNative::RightBooleanAnd => Some(p && q),
        BitNative::BooleanXor | BitNative::RightBooleanXor => Some(p != q),
        BitNative::BooleanOr | BitNative::RightBooleanOr => Some(p || q),
        _ => None,
    }
}

// What a native makes of the bits of two numbers. Those of the right operand turn the two.
fn bits_by(native: BitNative, x: i128, y: i128) -> Result<i128, Raised>
    ensures { result ≡ bits_by native x y }
{
    match native {
        BitNative::Lshift => left_shifted(x, y),
        BitNative::RightLshift => left_shifted(y, x),
        BitNative::Rshift => right_shifted(x, y),
        BitNative::RightRshift => right_shifted(y, x),
        BitNative::And | BitNative::BooleanAnd => Ok(x & y),
        BitNative::RightAnd | BitNative::RightBooleanAnd => Ok(y & x),
        BitNative::Xor | BitNative::BooleanXor => Ok(x ^ y),
        BitNative::RightXor | BitNative::RightBooleanXor => Ok(y ^ x),
        BitNative::Or | BitNative::BooleanOr => Ok(x | y),
        BitNative::RightOr | BitNative::RightBooleanOr => Ok(y | x),
    }
}
