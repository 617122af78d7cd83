//! The natives that reckon with two numbers.

ghost use Rattle.py_node.specs.Stops.{Ended};
ghost use Rattle.proto_ops.specs.Below.{ℤ, IfOk, IfErr, Said, Ends, of_ended, Reading, bindings, ended_of, plain, AllHold, AreNodes, Holds, EndsAs, LeavesEnd};
ghost use Rattle.std.specs.Prelude.{◌≡◌};
ghost use Rattle.proto_ops.specs.NativeNumbers.Say.{arithmetic_by, arithmetic_say, with_operands, with_powers, divided};

use crate::native_numbers::reckon::{
    difference, floor_remainder, power, product, quotient, remainder,
};
use class_world::args::both;
use class_world::takes::three;
use class_world::{Fixed, World};
use py_node::{Answer, ArithmeticNative, BuiltIn, FuncArgs, Payload, Raised, Stop};
use row_kit::give::new_int;
use row_kit::take_numbers::{numbers, numbers_of};

/// A native that reckons with two numbers.
pub fn arithmetic_native(
    world: &mut World,
    native: ArithmeticNative,
    call: FuncArgs<'_>,
) -> Result<Answer, Stop>
    requires { Holds world.old (AreNodes call.args.now) }
    ensures ends { Ended result (EndsAs (λ t u. arithmetic_say u native call.entry.args.now (bindings t call.entry.kw.now))
        world.old world.new) }
    ensures safe { LeavesEnd world.old world.new result }
{
    match operands(world, native, call) {
        Err(answer) => Ok(answer?),
        Ok((x, y)) => arithmetic_by(world, native, x, y),
    }
}

// The two numbers that a native reckons with, or how it ends without them.
fn operands(
    world: &World,
    native: ArithmeticNative,
    call: FuncArgs<'_>,
) -> Result<(i128, i128), Result<Answer, Raised>>
    requires { Holds world.now (AreNodes call.args.now) }
    ensures given { IfOk result (λ p. (t : Reading) (go : ℤ → ℤ → Said) →
        with_operands (plain t world.now) native call.entry.args.now (bindings t call.entry.kw.now) go ≡ go p.0 p.1) }
    ensures ended { IfErr result (λ r. (t : Reading) (go : ℤ → ℤ → Said) →
        with_operands (plain t world.now) native call.entry.args.now (bindings t call.entry.kw.now) go ≡
        Ends (plain t world.now) (ended_of r)) }
    ensures holds { IfErr result (λ r. AllHold world.now (of_ended r)) }
{
    match native {
        ArithmeticNative::Power => powers(world, call),
        ArithmeticNative::RightPower => powers(world, call),
        _ => numbers(world, call),
    }
}

// The two numbers of a power. There may be a third operand, where the native is for None alone.
fn powers(world: &World, call: FuncArgs<'_>) -> Result<(i128, i128), Result<Answer, Raised>>
    requires { Holds world.now (AreNodes call.args.now) }
    ensures given { IfOk result (λ p. (t : Reading) (go : ℤ → ℤ → Said) →
        with_powers (plain t world.now) call.entry.args.now (bindings t call.entry.kw.now) go ≡ go p.0 p.1) }
    ensures ended { IfErr result (λ r. (t : Reading) (go : ℤ → ℤ → Said) →
        with_powers (plain t world.now) call.entry.args.now (bindings t call.entry.kw.now) go ≡ Ends (plain t world.now) (ended_of r)) }
    ensures holds { IfErr result (λ r. AllHold world.now (of_ended r)) }
{
    if call.args.len() != 3 {
        return numbers(world, call);
    }
    match three(call) {
        Err(raised) => Err(Err(raised)),
        Ok((a, b, c)) => match numbers_of(world, a, b) {
            Err(answer) => Err(answer),
            Ok((x, y)) => {
                if c.0 == Fixed::None.node().0 {
                    Ok((x, y))
                } else {
                    Err(Ok(Answer::Value(world.fixed(Fixed::NotImplemented))))
                }
            }
        },
    }
}

// What a native does with two numbers. Those of the right operand turn the two.
fn arithmetic_by(
    world: &mut World,
    native: ArithmeticNative,
    x: i128,
    y: i128,
) -> Result<Answer, Stop>
    ensures ends { Ended result (EndsAs (λ t u. arithmetic_by u native x y) world.old world.new) }
    ensures safe { LeavesEnd world.old world.new result }
{
    match native {
        ArithmeticNative::Subtract => new_int(world, difference(x, y)),
        ArithmeticNative::RightSubtract => new_int(world, difference(y, x)),
        ArithmeticNative::Multiply => new_int(world, product(x, y)),
        ArithmeticNative::RightMultiply => new_int(world, product(y, x)),
        ArithmeticNative::Remainder => new_int(world, remainder(x, y)),
        ArithmeticNative::RightRemainder => new_int(world, remainder(y, x)),
        ArithmeticNative::Divmod => divided(world, x, y),
        ArithmeticNative::RightDivmod => divided(world, y, x),
        ArithmeticNative::Power => new_int(world, power(x, y)),
        ArithmeticNative::RightPower => new_int(world, power(y, x)),
        ArithmeticNative::FloorDivide => new_int(world, quotient(x, y)),
        ArithmeticNative::RightFloorDivide => new_int(world, quotient(y, x)),
    }
}

// The tuple of a quotient and what it leaves, after these two.
fn divided(world: &mut World, x: i128, y: i128) -> Result<Answer, Stop>
    ensures ends { Ended result (EndsAs (λ t u. divided u x y) world.old world.new) }
    ensures safe { LeavesEnd world.old world.new result }
{
    let q = quotient(x, y)?;
    let r = remainder(x, y)?;
    let alloc = world.alloc();
    let class = world.built_in(BuiltIn::Int);
    let first = world.make_node(class, Payload::Number(q))?;
    let second = world.make_node(class, Payload::Number(r))?;
    let items = both(alloc, first, second)?;
    let node = world.make_node(world.built_in(BuiltIn::Tuple), Payload::Tuple(items))?;
    Ok(Answer::Value(node))
}
