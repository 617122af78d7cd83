//! The comparisons of numbers, by name.

ghost use Rattle.proto_ops.specs.Below.{bindings, of_ended, AllHold, AreNodes, Holds, EndsAs};
ghost use Rattle.std.specs.Prelude.{◌≡◌};
ghost use Rattle.proto_ops.specs.NativeNumbers.Say.{compare_say, order_by};

use class_world::{Fixed, World};
use py_node::{Answer, Cause, CompareNative, FuncArgs, Raised};
use row_kit::take_numbers::number_and;

/// A comparison of numbers, by name. Where the other object holds none, it answers NotImplemented.
pub fn compare_native(
    world: &World,
    native: CompareNative,
    call: FuncArgs<'_>,
) -> Result<Answer, Raised>
    requires { Holds world.now (AreNodes call.args.now) }
    ensures ends { EndsAs (λ t u. compare_say u native call.entry.args.now (bindings t call.entry.kw.now)) world.now world.now result }
    ensures holds { AllHold world.now (of_ended result) }
{
    if native == CompareNative::All {
        return Err(Raised::new(Cause::SelfType));
    }
    let (x, other) = number_and(world, call)?;
    match world.number(other) {
        Some(y) => Ok(Answer::Value(world.truth(order_by(native, x, y)))),
        None => Ok(Answer::Value(world.fixed(Fixed::NotImplemented))),
    }
}

// Whether two numbers stand so.
fn order_by(native: CompareNative, x: i128, y: i128) -> bool
    ensures { result ≡ order_by native x y }
{
    match native {
        CompareNative::Eq => x == y,
        CompareNative::Ne => x != y,
        CompareNative::Lt => x < y,
        CompareNative::Le => x <= y,
        CompareNative::Ge => x >= y,
        CompareNative::Gt => x > y,
        CompareNative::All => false,
    }
}
