//! The natives of one number.

ghost use Rattle.py_node.specs.Stops.{Ended};
ghost use Rattle.proto_ops.specs.Below.{bindings, AreNodes, Holds, IsNode, EndsAs, LeavesEnd, as_int};
ghost use Rattle.proto_ops.specs.NativeNumbers.Say.{number_by, number_say};

use crate::native_numbers::reckon::{absolute, inverted, negated};
use class_world::World;
use py_node::{Answer, FuncArgs, NumberNative, PyObjectRef, Stop};
use row_kit::give::{new_int, new_text, new_word};
use row_kit::int_values::{as_int, number_hash};
use row_kit::take_numbers::lone_number;

/// A native of one number.
pub fn number_native(
    world: &mut World,
    native: NumberNative,
    call: FuncArgs<'_>,
) -> Result<Answer, Stop>
    requires { Holds world.old (AreNodes call.args.now) }
    ensures ends { Ended result (EndsAs (λ t u. number_say u native call.entry.args.now (bindings t call.entry.kw.now))
        world.old world.new) }
    ensures safe { LeavesEnd world.old world.new result }
{
    let (o, z) = lone_number(world, call)?;
    number_by(world, native, o, z)
}

// What a native does with an object that holds a number.
fn number_by(
    world: &mut World,
    native: NumberNative,
    o: PyObjectRef,
    z: i128,
) -> Result<Answer, Stop>
    requires { Holds world.old (IsNode o) }
    ensures ends { Ended result (EndsAs (λ t u. number_by u native o z) world.old world.new) }
    ensures safe { LeavesEnd world.old world.new result }
{
    match native {
        NumberNative::Repr => {
            let text = format!(in world.alloc(); "{z}")?;
            new_text(world, text)
        }
        NumberNative::Hash => Ok(Answer::Number(number_hash(z))),
        NumberNative::Negative => new_int(world, negated(z)),
        NumberNative::Positive => as_int(world, o, z),
        NumberNative::Absolute => new_int(world, absolute(z)),
        NumberNative::Invert => new_int(world, Ok(inverted(z))),
        NumberNative::Boolean => Ok(Answer::Value(world.truth(z != 0))),
        NumberNative::Int => as_int(world, o, z),
        NumberNative::Index => as_int(world, o, z),
        NumberNative::Truncate => as_int(world, o, z),
        NumberNative::BooleanRepr if z != 0 => new_word(world, "True"),
        NumberNative::BooleanRepr => new_word(world, "False"),
    }
}
